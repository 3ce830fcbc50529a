// The values that hold in a level.
ghost use Rattle.std.specs.Prelude.{◌≡◌, ◌||◌, codes, option_map, unwrap_or, IfOk};
ghost use Rattle.site_whole.specs.Whole.{tries_seen};
ghost use Rattle.conf_block.specs.Forest.{forest_of, roots};
ghost use Rattle.conf_lists.specs.Words.{variables_in};
ghost use Rattle.conf_lists.specs.Lists.{stated_lists};
ghost use Rattle.conf_inherit.specs.Values.{word_in, entries_in, alias_place, place_in, with_role, with_directive, settings_in, auth_by, added_by, visible_in, either, lists_over, stated, over, defaults, internal_in, tries_in};
ghost use Rattle.conf_inherit.specs.Pools.{place_by, entries_by, lists_by, values_by, none_shared, number_of, level_by};

use byte_text::{ByteText, OutOfMemory};
use conf_block::{first_branch, has_named, next_named, role_of};
use conf_lists::tries_of;
use conf_table::Role;
use conf_text::Directive;
use conf_values::{Settings, value_of};
use ngx_variables::FileRoot;
use site_model::{Level, Program, Tries};
use std::alloc::Global;

/// The first word of the first directive of this name.
pub fn word_in<'a>(level: &'a [Directive], name: &[u8]) -> Option<&'a [u8]>
    ensures { option_map (λ w. w.now) result ≡ word_in name.now (forest_of level.now) }
{
    match next_named(level, name) {
        None => None,
        Some(branch) => match branch.directive.args.as_slice() {
            [] => None,
            [word, ..] => Some(word.as_slice()),
        },
    }
}

/// The text of `root`, or of `alias` with the prefix that it takes off a path, or of one that is the whole path.
#[derive(Clone, Copy)]
pub enum PlaceText<'a> {
    Root(&'a [u8]),
    Rest { text: &'a [u8], prefix: &'a [u8] },
    Whole(&'a [u8]),
}

/// A list that a level states, by the level and by the number of the list.
#[derive(Clone, Copy)]
pub struct Listed<'a> {
    pub level: &'a [Directive],
    pub number: u32,
}

/// The lists that hold in a level: each that of the level that states it, if one does.
#[derive(Clone, Copy)]
pub struct Shared<'a> {
    pub index: Option<Listed<'a>>,
    pub pages: Option<Listed<'a>>,
    pub rules: Option<Listed<'a>>,
    pub auth_sets: Option<Listed<'a>>,
    pub ssi_types: Option<Listed<'a>>,
    pub addition_types: Option<Listed<'a>>,
}

/// The values that hold in a level and are inherited, by the directives that state them.
#[derive(Clone, Copy)]
pub struct Inherited<'a> {
    pub place: PlaceText<'a>,
    /// The level whose `types` hold, if one states any.
    pub entries: Option<&'a [Directive]>,
    pub default_type: &'a [u8],
    /// The number of the list of media types.
    pub types: u32,
    pub settings: Settings,
    pub lists: Shared<'a>,
    /// The URI of the subrequest that decides on access, and of those before and after a body.
    pub auth: Option<&'a [u8]>,
    pub before: Option<&'a [u8]>,
    pub after: Option<&'a [u8]>,
    /// The words of the `ssi_visible` that holds.
    pub visible: Option<&'a [ByteText]>,
    /// The level is asked from inside alone.
    pub internal: bool,
}

/// No list is stated.
fn no_lists() -> Shared<'static>
    ensures { result ≡ none_shared }
{
    Shared {
        index: None,
        pages: None,
        rules: None,
        auth_sets: None,
        ssi_types: None,
        addition_types: None,
    }
}

/// The values that hold where nothing is stated.
pub fn defaults() -> Inherited<'static>
    ensures values { values_by result ≡ defaults }
    ensures types { result.types ≡ 0 }
    ensures lists { result.lists ≡ none_shared }
{
    Inherited {
        place: PlaceText::Root(b"html"),
        entries: None,
        default_type: b"text/plain",
        types: 0,
        settings: Settings::new(),
        lists: no_lists(),
        auth: None,
        before: None,
        after: None,
        visible: None,
        internal: false,
    }
}

/// `alias` of a location that takes this prefix off a path, or that is the whole path.
fn alias_place<'a>(prefix: Option<&'a [u8]>, text: &'a [u8]) -> PlaceText<'a>
    ensures { place_by result ≡ alias_place (option_map (λ t. t.now) prefix.entry) text.now }
{
    match prefix {
        None => PlaceText::Whole(text),
        Some(prefix) => PlaceText::Rest { text, prefix },
    }
}

fn place_in<'a>(prefix: Option<&'a [u8]>, level: &'a [Directive]) -> Option<PlaceText<'a>>
    ensures { option_map place_by result ≡ place_in (option_map (λ t. t.now) prefix.entry)
        (forest_of level.now) }
{
    if let Some(text) = word_in(level, b"root") {
        return Some(PlaceText::Root(text));
    }
    let text = word_in(level, b"alias")?;
    Some(alias_place(prefix, text))
}

fn place_over<'a>(
    prefix: Option<&'a [u8]>,
    level: &'a [Directive],
    outer: PlaceText<'a>,
) -> PlaceText<'a>
    ensures { place_by result ≡ unwrap_or
        (place_in (option_map (λ t. t.now) prefix.entry) (forest_of level.now))
        (place_by outer.entry) }
{
    place_in(prefix, level).unwrap_or(outer)
}

fn default_over<'a>(level: &'a [Directive], outer: &'a [u8]) -> &'a [u8]
    ensures { result.now ≡ unwrap_or
        (word_in (codes "default_type") (forest_of level.now)) outer.now }
{
    word_in(level, b"default_type").unwrap_or(outer)
}

fn with_role(settings: Settings, role: Role, words: &[ByteText]) -> Settings
    ensures { result ≡ with_role role words.now settings }
{
    match role {
        Role::Setting(setting) => settings.with_words(setting, words),
        _ => settings,
    }
}

/// A directive over the settings that hold before it.
fn with_directive(settings: Settings, directive: &Directive) -> Settings
    ensures { result ≡ with_directive directive.now settings }
{
    with_role(
        settings,
        role_of(directive.name.as_slice()),
        directive.args.as_slice(),
    )
}

/// The settings of a level, over those around it.
fn settings_in(level: &[Directive], outer: Settings) -> Settings
    ensures { result ≡ settings_in (roots (forest_of level.now)) outer }
{
    let mut settings = outer;
    let mut rest = level;
    while let Some(branch) = first_branch(rest) {
        settings = with_directive(settings, branch.directive);
        rest = branch.beside;
    }
    settings
}

fn entries_over<'a>(
    level: &'a [Directive],
    outer: Option<&'a [Directive]>,
) -> Option<&'a [Directive]>
    ensures { entries_by result ≡ unwrap_or (entries_in (forest_of level.now))
        (entries_by outer.entry) }
{
    if has_named(level, b"types") {
        Some(level)
    } else {
        outer
    }
}

/// The URI of `auth_request`, and none for `off`.
fn auth_by(word: &[u8]) -> Option<&[u8]>
    ensures { option_map (λ w. w.now) result ≡ auth_by word.now }
{
    if word == b"off".as_slice() {
        None
    } else {
        Some(word)
    }
}

fn auth_over<'a>(level: &'a [Directive], outer: Option<&'a [u8]>) -> Option<&'a [u8]>
    ensures { option_map (λ w. w.now) result ≡ unwrap_or
        (option_map auth_by (word_in (codes "auth_request") (forest_of level.now)))
        (option_map (λ w. w.now) outer.entry) }
{
    match word_in(level, b"auth_request") {
        None => outer,
        Some(word) => auth_by(word),
    }
}

/// The URI of an addition, and none for the empty word.
fn added_by(word: &[u8]) -> Option<&[u8]>
    ensures { option_map (λ w. w.now) result ≡ added_by word.now }
{
    if word.is_empty() { None } else { Some(word) }
}

/// The URI of the first directive of this name, or else this one.
fn added_over<'a>(level: &'a [Directive], name: &[u8], outer: Option<&'a [u8]>) -> Option<&'a [u8]>
    ensures { option_map (λ w. w.now) result ≡ unwrap_or
        (option_map added_by (word_in name.now (forest_of level.now)))
        (option_map (λ w. w.now) outer.entry) }
{
    match word_in(level, name) {
        None => outer,
        Some(word) => added_by(word),
    }
}

/// The words of `ssi_visible`, or else these.
fn visible_over<'a>(level: &'a [Directive], outer: Option<&'a [ByteText]>) -> Option<&'a [ByteText]>
    ensures { option_map (λ ws. variables_in ws.now) result ≡ either
        (visible_in (forest_of level.now)) (option_map (λ ws. variables_in ws.now) outer.entry) }
{
    match next_named(level, b"ssi_visible") {
        None => outer,
        Some(branch) => Some(branch.directive.args.as_slice()),
    }
}

/// Whether a level is asked from inside alone: where it states so, or one around it does.
fn internal_over(level: &[Directive], outer: bool) -> bool
    ensures { result ≡ (internal_in (forest_of level.now) || outer) }
{
    has_named(level, b"internal") || outer
}

/// What a block states whose `alias` takes this prefix off, if any, with these lists, over the values around it. The number of
/// the media types is that of those around it.
pub fn stated_over<'a>(
    prefix: Option<&'a [u8]>,
    level: &'a [Directive],
    lists: Shared<'a>,
    outer: Inherited<'a>,
) -> Inherited<'a>
    requires { lists_by lists ≡ lists_over (stated_lists (roots (forest_of level.now)))
        (lists_by outer.lists) }
    ensures values { values_by result ≡ over
        (stated (option_map (λ t. t.now) prefix.entry) (forest_of level.now))
        (values_by outer.entry) }
    ensures types { result.types ≡ outer.entry.types }
    ensures lists { result.lists ≡ lists.entry }
{
    let place = place_over(prefix, level, outer.place);
    let entries = entries_over(level, outer.entries);
    let default_type = default_over(level, outer.default_type);
    let settings = settings_in(level, outer.settings);
    let auth = auth_over(level, outer.auth);
    let before = added_over(level, b"add_before_body", outer.before);
    let after = added_over(level, b"add_after_body", outer.after);
    let visible = visible_over(level, outer.visible);
    let internal = internal_over(level, outer.internal);
    Inherited {
        place,
        entries,
        default_type,
        types: outer.types,
        settings,
        lists,
        auth,
        before,
        after,
        visible,
        internal,
    }
}

fn place_of(alloc: Global, place: PlaceText<'_>) -> Result<FileRoot, OutOfMemory>
    ensures { IfOk result (λ p. p ≡ place_by place.entry) }
{
    match place {
        PlaceText::Root(text) => Ok(FileRoot::Root(value_of(alloc, text)?)),
        PlaceText::Rest { text, prefix } => Ok(FileRoot::Rest {
            text: value_of(alloc, text)?,
            prefix: ByteText::from_slice(alloc, prefix)?,
        }),
        PlaceText::Whole(text) => Ok(FileRoot::Whole(value_of(alloc, text)?)),
    }
}

/// The names that a level tries.
fn tries_in(alloc: Global, level: &[Directive]) -> Result<Option<Tries>, OutOfMemory>
    ensures { IfOk result
        (λ tries. option_map tries_seen tries ≡ tries_in (forest_of level.now)) }
{
    match next_named(level, b"try_files") {
        None => Ok(None),
        Some(branch) => {
            let tries = tries_of(alloc, branch.directive.args.as_slice())?;
            Ok(tries)
        }
    }
}

fn copied(alloc: Global, text: Option<&[u8]>) -> Result<Option<ByteText>, OutOfMemory>
    ensures { IfOk result (λ copy. copy ≡ option_map (λ t. t.now) text.entry) }
{
    match text {
        None => Ok(None),
        Some(text) => Ok(Some(ByteText::from_slice(alloc, text)?)),
    }
}

fn number_of(listed: Option<Listed<'_>>) -> Option<u32>
    ensures { result ≡ number_of listed.entry }
{
    match listed {
        None => None,
        Some(listed) => Some(listed.number),
    }
}

/// A level with these values, with what it alone states, and with this rewrite program.
pub fn level_of(
    alloc: Global,
    values: Inherited<'_>,
    level: &[Directive],
    program: Program,
) -> Result<Level, OutOfMemory>
    ensures values { IfOk result (λ l. l ≡ level_by
        (values_by values.entry) values.entry.types values.entry.lists l.tries program) }
    ensures tries { IfOk result (λ l. option_map tries_seen l.tries ≡ tries_in
        (forest_of level.now)) }
{
    let settings = values.settings;
    let lists = values.lists;
    Ok(Level {
        place: place_of(alloc, values.place)?,
        types: values.types,
        requests: settings.requests,
        idle: settings.idle,
        index: number_of(lists.index),
        tries: tries_in(alloc, level)?,
        internal: values.internal,
        pages: number_of(lists.pages),
        recursive: settings.recursive,
        body_most: settings.body_most,
        send_wait: settings.send_wait,
        head_wait: settings.head_wait,
        absolute: settings.absolute,
        with_port: settings.with_port,
        with_server_name: settings.with_server_name,
        any: settings.any,
        rules: number_of(lists.rules),
        auth: copied(alloc, values.auth)?,
        auth_sets: number_of(lists.auth_sets),
        ssi: settings.ssi,
        silent: settings.silent,
        ssi_types: number_of(lists.ssi_types),
        value_most: settings.value_most,
        capture_most: settings.capture_most,
        before: copied(alloc, values.before)?,
        after: copied(alloc, values.after)?,
        addition_types: number_of(lists.addition_types),
        program,
    })
}
