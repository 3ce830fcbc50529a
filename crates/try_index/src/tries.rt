// The names of `try_files`.
ghost use Rattle.std.specs.Prelude.{◌≡◌, ℕ, ◌<◌, ◌≤◌, List, length, drop, IfOk, Err, None, Some, option_map, unwrap_or};
ghost use Rattle.acts.specs.Act.{Done, settled};
ghost use Rattle.file_tree.specs.Tree.{Item, node_of};
ghost use Rattle.file_tree.specs.declared.job.Node.TheVariants.{Missing};
ghost use Rattle.target_text.specs.ngx_variables.declared.request.Main.{Main as MainView};
ghost use Rattle.site_whole.specs.site_views.Values.{Tries as TriesView};
ghost use Rattle.site_whole.specs.Whole.{tries_seen, last_seen};
ghost use Rattle.target_text.specs.request_meaning.Serving.{Standing};
ghost use Rattle.target_text.specs.request_meaning.Errors.{decided};
ghost use Rattle.target_text.specs.request_meaning.Errors.Outcome.{Fails};
ghost use Rattle.target_text.specs.request_meaning.Contents.{ends_in_slash as slash_last, last_try, tried};
ghost use Rattle.try_index.specs.declared.tries.TryState.{TryState as TryView};
ghost use Rattle.try_index.specs.Searches.{IsAt, is_found as found_by, tried_from, try_told, try_left, IsLastUnfit, IsTryUnfit};

use crate::probe::{Scene, is_file, is_folder, turn_of};
use byte_text::ByteText;
use file_tree::Node;
use site_whole::site_model::{LastTry, Tries};
use std::alloc::Global;
use target_text::ngx_variables::{EvalFault, FileRoot, Main, Request, Value, VarTable};
use target_text::{fit_value_settles, item_settles, target_of, target_settles};

/// A search of the names of `try_files`, between two questions to the files.
#[derive(Drop)]
pub struct TryState {
    /// How many names were taken up.
    pub(crate) passed: usize,
    /// The name whose node is asked for.
    pub(crate) asked: Option<ByteText>,
}

/// What a search comes to next.
#[derive(Drop)]
pub enum TryStep {
    /// The files are asked what is at this path.
    Probe(ByteText),
    /// A name was found: it becomes the request's path, in the present level.
    Use(ByteText),
    /// None was found, and the last word says what follows: a path with its arguments, a location `@name`, or a code.
    Redirect { path: ByteText, args: ByteText },
    Named(ByteText),
    Status(u16),
}

fn ends_in_slash(name: &[u8]) -> bool
    ensures { result ≡ slash_last name.now }
{
    match name {
        [.., last] => *last == b'/',
        [] => false,
    }
}

/// A name that ends in a slash needs a folder, another a file.
fn is_found(name: &[u8], node: Node) -> bool
    ensures { result ≡ found_by name.now node }
{
    if ends_in_slash(name) {
        is_folder(node)
    } else {
        is_file(node)
    }
}

/// What follows where no name was found.
fn last_step(
    alloc: Global,
    last: &LastTry,
    main: &Main,
    request: &Request,
    vars: &VarTable,
) -> Result<TryStep, EvalFault>
    ensures step { IfOk result (λ step. (s : Standing) (t : TriesView) (state : TryView)
        → s.request ≡ request.now
        → settled (last_try main.now s (last_seen last.now)) vars.now
        ≡ settled (try_left main.now s t state step) vars.now) }
    ensures too_long { result ≡ Err EvalFault.TooLong → (s : Standing) → s.request ≡ request.now
        → settled (last_try main.now s (last_seen last.now)) vars.now
        ≡ (Done (decided s (Fails 500)), vars.now) }
    ensures unfit { result ≡ Err EvalFault.TooLong
        → IsLastUnfit main.now request.now vars.now (last_seen last.now) }
{
    target_settles();
    match last {
        LastTry::Path(text) => {
            let target = target_of(alloc, text, main, request, vars)?;
            Ok(TryStep::Redirect {
                path: target.path,
                args: target.args.unwrap_or(ByteText::new(alloc)),
            })
        }
        LastTry::Location(name) => {
            Ok(TryStep::Named(ByteText::from_slice(alloc, name.as_slice())?))
        }
        LastTry::Code(code) => Ok(TryStep::Status(*code)),
    }
}

impl TryState {
    /// A search before its first name.
    pub fn new() -> Self
        ensures { (main : MainView) (s : Standing) (t : TriesView) (item : Item)
            → try_told main s t result item ≡ tried main s t.names t.last }
    {
        TryState {
            passed: 0,
            asked: None,
        }
    }

    /// Goes on with the node that the files told of the path that was asked for last; none is told before the first. Of a
    /// path that isn't told nothing is there.
    ///
    /// # Errors
    /// `TooLong` where an evaluated text has more than 16384 bytes.
    pub fn next(
        &mut self,
        alloc: Global,
        answer: Option<Node>,
        tries: &Tries,
        scene: &Scene<'_>,
    ) -> Result<TryStep, EvalFault>
        ensures step { IfOk result (λ step. (s : Standing) (item : Item)
            → let vars = scene.now.vars.now in let main = scene.now.main.now in
            IsAt scene.now.request.now scene.now.place.now s
            → node_of item ≡ unwrap_or answer Missing
            → settled (try_told main s (tries_seen tries.now) self.old item) vars
            ≡ settled (try_left main s (tries_seen tries.now) self.new step) vars) }
        ensures too_long { result ≡ Err EvalFault.TooLong → (s : Standing) (item : Item)
            → let vars = scene.now.vars.now in let main = scene.now.main.now in
            IsAt scene.now.request.now scene.now.place.now s
            → node_of item ≡ unwrap_or answer Missing
            → settled (try_told main s (tries_seen tries.now) self.old item) vars
            ≡ (Done (decided s (Fails 500)), vars) }
        ensures unfit { result ≡ Err EvalFault.TooLong → IsTryUnfit scene.now.main.now
            scene.now.request.now scene.now.vars.now scene.now.place.now (tries_seen tries.now)
            self.new.passed }
    {
        let place = scene.place;
        let main = scene.main;
        let request = scene.request;
        let vars = scene.vars;
        match self.asked.take() {
            Some(name) => {
                if is_found(name.as_slice(), answer.unwrap_or(Node::Missing)) {
                    return Ok(TryStep::Use(name));
                }
                let step = self.search(alloc, tries, place, main, request, vars)?;
                Ok(step)
            }
            None => {
                let step = self.search(alloc, tries, place, main, request, vars)?;
                Ok(step)
            }
        }
    }

    /// Takes up the names that come next, up to one whose file may be there.
    fn search(
        &mut self,
        alloc: Global,
        tries: &Tries,
        place: &FileRoot,
        main: &Main,
        request: &Request,
        vars: &VarTable,
    ) -> Result<TryStep, EvalFault>
        ensures step { IfOk result (λ step. (s : Standing) → IsAt request.now place.now s
            → settled (tried_from main.now s (tries_seen tries.now) self.old.passed) vars.now
            ≡ settled (try_left main.now s (tries_seen tries.now) self.new step) vars.now) }
        ensures too_long { result ≡ Err EvalFault.TooLong → (s : Standing)
            → IsAt request.now place.now s
            → settled (tried_from main.now s (tries_seen tries.now) self.old.passed) vars.now
            ≡ (Done (decided s (Fails 500)), vars.now) }
        ensures unfit { result ≡ Err EvalFault.TooLong → IsTryUnfit main.now request.now vars.now
            place.now (tries_seen tries.now) self.new.passed }
    {
        fit_value_settles();
        item_settles();
        let names: &[Value] = tries.names.as_slice();
        while self.passed < names.len() {
            let at = self.passed;
            self.passed = at + 1;
            let found = turn_of(alloc, &[], &names[at], place, main, request, vars)?;
            match found {
                Some(turn) => {
                    self.asked = Some(turn.uri);
                    return Ok(TryStep::Probe(turn.path));
                }
                None => {}
            }
        }
        let step = last_step(alloc, &tries.last, main, request, vars)?;
        Ok(step)
    }
}
