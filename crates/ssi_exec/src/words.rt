// The words of commands, and their parameters.
ghost use Rattle.std.specs.Prelude.{◌≡◌, ℕ, ◌+◌, ◌<◌, ◌≤◌, ◌&&◌, List, [], ◌∷◌, length, bytes_eq, option_map};
ghost use Rattle.std.specs.List.{find, list_all, list_any};
ghost use Rattle.request_meaning.specs.Commands.{word_named as named_word, param as value_of, has as there_is, are_once as once, are_params as good_params, text_of as text_named, may_have as allowed};
ghost use Rattle.ssi_exec.specs.Named.{word_seen, name_of, all_words, fits, has_all};

use ssi_text::Param;

/// A command (<https://nginx.org/en/docs/http/ngx_http_ssi_module.html#commands>).
#[derive(Clone, Copy)]
pub enum Word {
    Block,
    EndBlock,
    Config,
    Echo,
    If,
    Elif,
    Else,
    EndIf,
    Include,
    Set,
}

const WORDS: [Word; 10] = [
    Word::Block,
    Word::EndBlock,
    Word::Config,
    Word::Echo,
    Word::If,
    Word::Elif,
    Word::Else,
    Word::EndIf,
    Word::Include,
    Word::Set,
];

impl Word {
    #[tactic(auto, unfolding(crate::specs::Named::name_of))]
    fn name(self) -> &'static [u8]
        ensures { result.now ≡ name_of self }
    {
        match self {
            Word::Block => b"block",
            Word::EndBlock => b"endblock",
            Word::Config => b"config",
            Word::Echo => b"echo",
            Word::If => b"if",
            Word::Elif => b"elif",
            Word::Else => b"else",
            Word::EndIf => b"endif",
            Word::Include => b"include",
            Word::Set => b"set",
        }
    }

    /// Whether the command may have a parameter of this name.
    #[tactic(auto, unfolding(request_meaning::specs::Commands::may_have))]
    fn may_have(self, name: &[u8]) -> bool
        ensures { result ≡ list_any (bytes_eq name.now) (allowed (word_seen self)) }
    {
        match self {
            Word::Block => is_word(name, b"name"),
            Word::EndBlock => false,
            Word::Config => is_word(name, b"errmsg") || is_word(name, b"timefmt"),
            Word::Echo => is_word(name, b"var")
                || is_word(name, b"default")
                || is_word(name, b"encoding"),
            Word::If => is_word(name, b"expr"),
            Word::Elif => is_word(name, b"expr"),
            Word::Else => false,
            Word::EndIf => false,
            Word::Include => may_include(name),
            Word::Set => is_word(name, b"var") || is_word(name, b"value"),
        }
    }

    /// Whether the parameters that the command must have are among these.
    #[tactic(auto, unfolding(request_meaning::specs::Commands::must_have))]
    fn has_all(self, ps: &[Param]) -> bool
        ensures { result ≡ has_all (word_seen self) ps.now }
    {
        match self {
            Word::Block => has(b"name", ps),
            Word::EndBlock => true,
            Word::Config => true,
            Word::Echo => has(b"var", ps),
            Word::If => has(b"expr", ps),
            Word::Elif => has(b"expr", ps),
            Word::Else => true,
            Word::EndIf => true,
            Word::Include => true,
            Word::Set => has(b"var", ps) && has(b"value", ps),
        }
    }
}

/// Whether a name is this word.
pub(crate) fn is_word(name: &[u8], word: &[u8]) -> bool
    ensures { result ≡ bytes_eq name.now word.now }
{
    name == word
}

/// Whether `include` may have a parameter of this name.
#[tactic(auto, unfolding(request_meaning::specs::Commands::may_have))]
fn may_include(name: &[u8]) -> bool
    ensures { result ≡ list_any (bytes_eq name.now) (allowed (word_seen Word.Include)) }
{
    is_word(name, b"virtual")
        || is_word(name, b"file")
        || is_word(name, b"stub")
        || is_word(name, b"wait")
        || is_word(name, b"set")
}

/// The first of these words that has this name.
fn word_in(words: &[Word], name: &[u8]) -> Option<Word>
    ensures { result ≡ find (λ w. bytes_eq (name_of w) name.now) words.now }
{
    for word in words {
        if word.name() == name {
            return Some(*word);
        }
    }
    None
}

/// The command of this name, in lower case.
pub(crate) fn word_named(name: &[u8]) -> Option<Word>
    ensures { option_map word_seen result ≡ named_word name.now }
{
    // Most commands are includes.
    if is_word(name, Word::Include.name()) {
        return Some(Word::Include);
    }
    word_in(&WORDS, name)
}

/// The value of a parameter, if it is there.
#[tactic(auto, unfolding(request_meaning::specs::Commands::param))]
#[inline(always)]
pub(crate) fn param<'a>(name: &[u8], ps: &'a [Param]) -> Option<&'a [u8]>
    ensures { option_map (λ value. value.now) result ≡ value_of name.now ps.now }
{
    for p in ps {
        if p.name.as_slice() == name {
            return Some(p.value.as_slice());
        }
    }
    None
}

pub(crate) fn has(name: &[u8], ps: &[Param]) -> bool
    ensures { result ≡ there_is name.now ps.now }
{
    param(name, ps).is_some()
}

/// The value of a parameter, empty where it isn't there.
pub(crate) fn text_of<'a>(name: &[u8], ps: &'a [Param]) -> &'a [u8]
    ensures { result.now ≡ text_named name.now ps.now }
{
    match param(name, ps) {
        Some(value) => value,
        None => &[],
    }
}

/// Whether each parameter is one that the command may have, and not too long.
fn all_fit(word: Word, ps: &[Param], most: u32) -> bool
    ensures { result ≡ list_all (fits most (word_seen word)) ps.now }
{
    for p in ps {
        if !word.may_have(p.name.as_slice()) || p.value.len() > most as usize {
            return false;
        }
    }
    true
}

/// Whether each name is there once.
#[tactic(auto, unfolding(request_meaning::specs::Commands::are_once))]
fn are_once(ps: &[Param]) -> bool
    ensures { result ≡ once ps.now }
{
    let mut rest = ps;
    while let [p, behind @ ..] = rest {
        if has(p.name.as_slice(), behind) {
            return false;
        }
        rest = behind;
    }
    true
}

/// Whether no parameter is missing, repeated, unknown or longer than `ssi_value_length`.
#[tactic(auto, unfolding(request_meaning::specs::Commands::are_params))]
pub(crate) fn are_params(word: Word, ps: &[Param], most: u32) -> bool
    ensures { result ≡ good_params most (word_seen word) ps.now }
{
    all_fit(word, ps, most) && are_once(ps) && word.has_all(ps)
}
