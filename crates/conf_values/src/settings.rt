// The values of directives that are numbers or choices, and that levels inherit.
ghost use Rattle.std.specs.Prelude.{◌≡◌, codes, is_some};
ghost use Rattle.std.specs.List.{list_all};
ghost use Rattle.conf_values.specs.Numbers.{size_to};
ghost use Rattle.conf_values.specs.Settings.{switch_of, any_of, is_value, are_values};

use crate::number::{count_of, count_to, size_of, size_to, time_of};
use byte_text::ByteText;
use conf_table::{Setting, Switch, Time};

/// The values that hold in a level, each as its directive's page of nginx's reference says.
#[derive(Clone, Copy, Debug, PartialEq, Eq)]
pub struct Settings {
    /// How many requests are answered on one connection (`keepalive_requests`).
    pub requests: u32,
    /// How long a connection is kept open after a response, and how long a write and a head may take, in milliseconds
    /// (`keepalive_timeout`, `send_timeout`, `client_header_timeout`).
    pub idle: u64,
    pub send_wait: u64,
    pub head_wait: u64,
    /// The longest body of a request, in bytes, and 0 for any length (`client_max_body_size`).
    pub body_most: u64,
    /// The longest value in a document, and the longest body that a variable takes, in bytes (`ssi_value_length`,
    /// `subrequest_output_buffer_size`).
    pub value_most: u32,
    pub capture_most: u32,
    /// How a redirect is written (`absolute_redirect`, `port_in_redirect`, `server_name_in_redirect`).
    pub absolute: bool,
    pub with_port: bool,
    pub with_server_name: bool,
    /// Whether slashes that are neighbours are one (`merge_slashes`).
    pub merge: bool,
    /// Whether an error of an error's page has a page too (`recursive_error_pages`).
    pub recursive: bool,
    /// Whether one of address rules and subrequest suffices (`satisfy any`).
    pub any: bool,
    /// Server side includes (`ssi`, `ssi_silent_errors`).
    pub ssi: bool,
    pub silent: bool,
}

/// `on` or `off`.
#[tactic(auto, unfolding(crate::specs::Settings::switch_of))]
fn switch_of(word: &[u8]) -> Option<bool>
    ensures { result ≡ switch_of word.now }
{
    if word == b"on".as_slice() {
        Some(true)
    } else if word == b"off".as_slice() {
        Some(false)
    } else {
        None
    }
}

/// `any` or `all`.
#[tactic(auto, unfolding(crate::specs::Settings::any_of))]
fn any_of(word: &[u8]) -> Option<bool>
    ensures { result ≡ any_of word.now }
{
    if word == b"any".as_slice() {
        Some(true)
    } else if word == b"all".as_slice() {
        Some(false)
    } else {
        None
    }
}

/// A size of at most 16384 bytes.
fn capture_of(word: &[u8]) -> Option<u32>
    ensures { result ≡ size_to 16384 word.now }
{
    match size_to(word, 16384) {
        None => None,
        Some(size) => Some(size as u32),
    }
}

fn is_value(setting: Setting, word: &[u8]) -> bool
    ensures { result ≡ is_value setting word.now }
{
    match setting {
        Setting::Switch(_) => switch_of(word).is_some(),
        Setting::Time(_) => time_of(word).is_some(),
        Setting::KeepaliveRequests => count_of(word).is_some(),
        Setting::SsiValueLength => count_to(word, 8192).is_some(),
        Setting::ClientMaxBodySize => size_of(word).is_some(),
        Setting::SubrequestOutputBufferSize => size_to(word, 16384).is_some(),
        Setting::Satisfy => any_of(word).is_some(),
    }
}

/// Whether each of these words has a value of the directive.
pub fn are_values(setting: Setting, words: &[ByteText]) -> bool
    ensures { result ≡ are_values setting words.now }
{
    for word in words {
        if !is_value(setting, word.as_slice()) {
            return false;
        }
    }
    true
}

impl Settings {
    ghost use Rattle.std.specs.Prelude.{◌≡◌};
    ghost use Rattle.conf_values.specs.Settings.{default_settings, with_switch, with_time, with_word, with_words};

    /// The values that hold where nothing is stated.
    pub fn new() -> Settings
        ensures { result ≡ default_settings }
    {
        Settings {
            requests: 1000,
            idle: 75_000,
            send_wait: 60_000,
            head_wait: 60_000,
            body_most: 1_048_576,
            value_most: 256,
            capture_most: 4096,
            absolute: true,
            with_port: true,
            with_server_name: false,
            merge: true,
            recursive: false,
            any: false,
            ssi: false,
            silent: false,
        }
    }

    fn with_switch(self, switch: Switch, on: Option<bool>) -> Settings
        ensures { result ≡ with_switch switch on self }
    {
        match switch {
            Switch::AbsoluteRedirect => Settings {
                absolute: on.unwrap_or(self.absolute),
                ..self
            },
            Switch::PortInRedirect => Settings {
                with_port: on.unwrap_or(self.with_port),
                ..self
            },
            Switch::ServerNameInRedirect => Settings {
                with_server_name: on.unwrap_or(self.with_server_name),
                ..self
            },
            Switch::MergeSlashes => Settings {
                merge: on.unwrap_or(self.merge),
                ..self
            },
            Switch::RecursiveErrorPages => Settings {
                recursive: on.unwrap_or(self.recursive),
                ..self
            },
            Switch::Ssi => Settings {
                ssi: on.unwrap_or(self.ssi),
                ..self
            },
            Switch::SsiSilentErrors => Settings {
                silent: on.unwrap_or(self.silent),
                ..self
            },
        }
    }

    fn with_time(self, time: Time, wait: Option<u64>) -> Settings
        ensures { result ≡ with_time time wait self }
    {
        match time {
            Time::KeepaliveTimeout => Settings {
                idle: wait.unwrap_or(self.idle),
                ..self
            },
            Time::ClientHeaderTimeout => Settings {
                head_wait: wait.unwrap_or(self.head_wait),
                ..self
            },
            Time::SendTimeout => Settings {
                send_wait: wait.unwrap_or(self.send_wait),
                ..self
            },
        }
    }

    #[tactic(auto, unfolding(crate::specs::Settings::with_word))]
    fn with_word(self, setting: Setting, word: &[u8]) -> Settings
        ensures { result ≡ with_word setting word.now self }
    {
        match setting {
            Setting::Switch(switch) => self.with_switch(switch, switch_of(word)),
            Setting::Time(time) => self.with_time(time, time_of(word)),
            Setting::KeepaliveRequests => Settings {
                requests: count_of(word).unwrap_or(self.requests),
                ..self
            },
            Setting::SsiValueLength => Settings {
                value_most: count_to(word, 8192).unwrap_or(self.value_most),
                ..self
            },
            Setting::ClientMaxBodySize => Settings {
                body_most: size_of(word).unwrap_or(self.body_most),
                ..self
            },
            Setting::SubrequestOutputBufferSize => Settings {
                capture_most: capture_of(word).unwrap_or(self.capture_most),
                ..self
            },
            Setting::Satisfy => Settings {
                any: any_of(word).unwrap_or(self.any),
                ..self
            },
        }
    }

    /// What holds with the words of a directive, over what holds around it.
    pub fn with_words(self, setting: Setting, words: &[ByteText]) -> Settings
        ensures { result ≡ with_words setting words.now self }
    {
        match words {
            [] => self,
            [word, ..] => self.with_word(setting, word.as_slice()),
        }
    }
}
