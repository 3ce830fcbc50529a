// The condition of an `if`.
ghost use Rattle.std.specs.Prelude.{◌≡◌, ℕ, ◌+◌, ◌<◌, ◌≤◌, Bool, true, false, List, [], ◌∷◌, ◌++◌, length, None, Some, option_map, IfOk};
ghost use Rattle.file_tree.specs.Tree.{Item, node_of};
ghost use Rattle.request_meaning.specs.file_path.Located.{located};
ghost use Rattle.ngx_variables.specs.declared.request.FileRoot.TheVariants.{Whole};
ghost use Rattle.ngx_variables.specs.Texts.{value_text};
ghost use Rattle.site_whole.specs.site_views.Pattern.{Pattern};
ghost use Rattle.site_whole.specs.Whole.{test_seen};
ghost use Rattle.request_meaning.specs.Rewriting as rewriting;
ghost use Rattle.request_meaning.specs.Rewriting.{is_true, equals, matching};
ghost use Rattle.pattern_search.specs.Found.{found_at};
ghost use Rattle.rewrite_code.specs.Runs.{test_passes};
ghost use Rattle.rewrite_code.specs.Texts.{fit_of, fitted};
ghost use Rattle.rewrite_code.specs.Conditions.Checked.{Knows};
ghost use Rattle.rewrite_code.specs.Conditions.{looks_at, looks, variable_of, checked_text, checked, condition_seen, node_passes};

use crate::groups::find_groups;
use crate::text::{fit_text, fitted};
use byte_text::{ByteText, OutOfMemory};
use file_tree::Node;
use ngx_pattern::PatternSet;
use ngx_variables::{EvalFault, FileRoot, Groups, Main, Piece, Request, Value, VarTable};
use request_meaning::file_path::path_under;
use site_whole::site_model::{FileTest, Test};
use std::alloc::Global;

/// What a condition says.
#[derive(Drop)]
pub enum Condition {
    /// Whether it holds, and the groups of a match.
    Says { holds: bool, groups: Option<Groups> },
    /// A text of it is too long.
    Unfit,
    /// That depends on what is at this path.
    Asks(ByteText),
}

/// A variable's text is false where it is empty or `0`.
pub(crate) fn is_true(text: &[u8]) -> bool
    ensures { result ≡ is_true text.now }
{
    if text.is_empty() {
        return false;
    }
    text != b"0".as_slice()
}

fn says(holds: bool) -> Condition
    ensures { condition_seen result ≡ Knows (rewriting.says holds) }
{
    Condition::Says {
        holds,
        groups: None,
    }
}

/// Compares a variable's text with one that is evaluated.
fn compared(left: &[u8], right: &[u8]) -> Condition
    ensures { condition_seen result ≡ Knows (equals left.now (fitted right.now)) }
{
    match fitted(right) {
        Some(right) => says(left == right),
        None => Condition::Unfit,
    }
}

/// Compares a variable's text with another.
#[tactic(auto, unfolding(crate::specs::Texts::fit_of))]
fn compare(
    alloc: Global,
    left: &[u8],
    text: &Value,
    main: &Main,
    request: &Request,
    vars: &VarTable,
) -> Result<Condition, OutOfMemory>
    ensures { IfOk result (λ c. condition_seen c
        ≡ Knows (equals left.now (fit_of main.now request.now vars.now text.now))) }
{
    if let Some(right) = text.literal() {
        return Ok(compared(left, right));
    }
    match fit_text(alloc, text, main, request, vars)? {
        Some(right) => Ok(says(left == right.as_slice())),
        None => Ok(Condition::Unfit),
    }
}

/// Searches a variable's text for a pattern.
fn find(
    alloc: Global,
    left: &[u8],
    pattern: u32,
    patterns: &mut PatternSet,
) -> Result<Condition, OutOfMemory>
    ensures found { IfOk result (λ c. condition_seen c
        ≡ Knows (matching left.now (found_at patterns.old pattern left.now))) }
    ensures kept { patterns.new ≡ patterns.old }
{
    let groups = find_groups(alloc, patterns, pattern, left)?;
    Ok(Condition::Says {
        holds: groups.is_some(),
        groups,
    })
}

/// Where a file test looks, by its text.
fn look(alloc: Global, text: &[u8], folder: &[u8]) -> Result<Condition, OutOfMemory>
    ensures { IfOk result (λ c. condition_seen c
        ≡ looks_at (located (Whole []) text.now [] folder.now)) }
{
    let place = FileRoot::Whole(Value::from_pieces(Vec::new(alloc)));
    let mut path = ByteText::new(alloc);
    match path_under(alloc, &place, text, &[], folder, &mut path) {
        Ok(true) => Ok(Condition::Asks(path)),
        Ok(false) => Ok(says(false)),
        Err(EvalFault::TooLong) => Ok(Condition::Unfit),
        Err(EvalFault::OutOfMemory) => Err(OutOfMemory),
    }
}

/// The same for a text that is the same for every request.
fn look_fitted(alloc: Global, text: &[u8], main: &Main) -> Result<Condition, OutOfMemory>
    ensures { IfOk result (λ c. condition_seen c ≡ looks main.now (fitted text.now)) }
{
    match fitted(text) {
        Some(text) => look(alloc, text, main.folder.as_slice()),
        None => Ok(Condition::Unfit),
    }
}

/// Where a file test looks.
#[tactic(auto, unfolding(crate::specs::Texts::fit_of))]
fn look_for(
    alloc: Global,
    path: &Value,
    main: &Main,
    request: &Request,
    vars: &VarTable,
) -> Result<Condition, OutOfMemory>
    ensures { IfOk result (λ c. condition_seen c
        ≡ looks main.now (fit_of main.now request.now vars.now path.now)) }
{
    if let Some(text) = path.literal() {
        return look_fitted(alloc, text, main);
    }
    match fit_text(alloc, path, main, request, vars)? {
        Some(text) => look(alloc, text.as_slice(), main.folder.as_slice()),
        None => Ok(Condition::Unfit),
    }
}

/// What a test of a variable's text says.
#[tactic(auto, unfolding(crate::specs::Conditions::checked_text))]
fn check_text(
    alloc: Global,
    test: &Test,
    left: &[u8],
    patterns: &mut PatternSet,
    main: &Main,
    request: &Request,
    vars: &VarTable,
) -> Result<Condition, OutOfMemory>
    ensures says { IfOk result (λ c. condition_seen c
        ≡ checked_text patterns.old main.now request.now vars.now left.now test.now) }
    ensures kept { patterns.new ≡ patterns.old }
{
    match test {
        Test::IsSet(_) => Ok(says(is_true(left))),
        Test::Equals { variable: _, text } => compare(alloc, left, text, main, request, vars),
        Test::Matches {
            variable: _,
            pattern,
        } => find(alloc, left, *pattern, patterns),
        Test::OnFile { test: _, path } => look_for(alloc, path, main, request, vars),
    }
}

/// The variable that a condition looks at; a file test has none.
pub(crate) fn variable_of(test: &Test) -> Option<&Piece>
    ensures { option_map (λ variable. variable.now) result ≡ variable_of test.now }
{
    match test {
        Test::IsSet(variable) => Some(variable),
        Test::Equals { variable, text: _ } => Some(variable),
        Test::Matches {
            variable,
            pattern: _,
        } => Some(variable),
        Test::OnFile { test: _, path: _ } => None,
    }
}

/// What a condition says. A variable that is somewhere already is looked at there.
pub(crate) fn check(
    alloc: Global,
    test: &Test,
    patterns: &mut PatternSet,
    main: &Main,
    request: &Request,
    vars: &VarTable,
) -> Result<Condition, OutOfMemory>
    ensures says { IfOk result (λ c. condition_seen c
        ≡ checked patterns.old main.now request.now vars.now test.now) }
    ensures kept { patterns.new ≡ patterns.old }
{
    let Some(variable) = variable_of(test) else {
        return check_text(alloc, test, &[], patterns, main, request, vars);
    };
    if let Some(left) = variable.borrowed(main, request, vars) {
        return check_text(alloc, test, left, patterns, main, request, vars);
    }
    let mut left = ByteText::new(alloc);
    variable.append(alloc, main, request, vars, &mut left)?;
    check_text(alloc, test, left.as_slice(), patterns, main, request, vars)
}

/// Whether a file test holds of a node.
fn node_passes(test: FileTest, node: Node) -> bool
    ensures { result ≡ node_passes test node }
{
    match (test, node) {
        (FileTest::IsFile, Node::File { len: _, date: _ }) => true,
        (FileTest::IsFile, Node::Locked) => true,
        (FileTest::IsFolder, Node::Folder) => true,
        (FileTest::IsThere, Node::File { len: _, date: _ }) => true,
        (FileTest::IsThere, Node::Folder) => true,
        (FileTest::IsThere, Node::Locked) => true,
        _ => false,
    }
}

/// Whether a file test holds of what is at its path; other conditions don't.
pub(crate) fn passes_test(test: &Test, node: Node) -> bool
    ensures { (ps : List Pattern) (item : Item) → node_of item ≡ node
        → result ≡ test_passes (test_seen ps test.now) item }
{
    match test {
        Test::OnFile { test, path: _ } => node_passes(*test, node),
        Test::IsSet(_) => false,
        Test::Equals {
            variable: _,
            text: _,
        } => false,
        Test::Matches {
            variable: _,
            pattern: _,
        } => false,
    }
}
