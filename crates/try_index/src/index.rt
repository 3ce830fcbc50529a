// The names of `index`.
ghost use Rattle.std.specs.Prelude.{◌≡◌, ℕ, ◌<◌, ◌≤◌, List, length, drop, map, IfOk, Err, None, Some, unwrap_or};
ghost use Rattle.acts.specs.Act.{Done, settled};
ghost use Rattle.file_tree.specs.Tree.{Item, node_of};
ghost use Rattle.file_tree.specs.declared.job.Node.TheVariants.{Missing};
ghost use Rattle.target_text.specs.ngx_variables.declared.request.Main.{Main as MainView};
ghost use Rattle.target_text.specs.ngx_variables.Texts.{value_text};
ghost use Rattle.site_whole.specs.site_views.Values.{IndexName as NameView};
ghost use Rattle.site_whole.specs.Whole.{index_seen, default_index as index_html};
ghost use Rattle.target_text.specs.request_meaning.Serving.{Standing};
ghost use Rattle.target_text.specs.request_meaning.Errors.{decided};
ghost use Rattle.target_text.specs.request_meaning.Errors.Outcome.{Fails};
ghost use Rattle.target_text.specs.request_meaning.Contents.{indexed};
ghost use Rattle.target_text.specs.Settled.{fit};
ghost use Rattle.try_index.specs.Searches.{IsAt, indexed_from, index_told, index_left, IsIndexUnfit};

use crate::probe::{Scene, is_file, turn_of};
use byte_text::{ByteText, OutOfMemory};
use file_tree::Node;
use site_whole::site_model::IndexName;
use std::alloc::Global;
use target_text::ngx_variables::{EvalFault, FileRoot, Main, Piece, Request, Value, VarTable};
use target_text::{fit_value_settles, item_settles};

/// A search of the names of `index`, between two questions to the files.
#[derive(Drop)]
pub struct IndexState {
    /// How many names were taken up.
    pub(crate) passed: usize,
    /// The path of the site whose node is asked for.
    pub(crate) asked: Option<ByteText>,
}

/// What a search comes to next.
#[derive(Drop)]
pub enum IndexStep {
    /// The files are asked what is at this path.
    Probe(ByteText),
    /// A redirect inside to this path of the site, with the arguments kept.
    Redirect(ByteText),
    /// No name was found: whether the folder is there decides.
    NoneFound,
}

/// `index.html` alone, which holds where no names are stated.
#[tactic(auto, unfolding(site_whole::specs::Whole::default_index))]
pub fn default_index(alloc: Global) -> Result<Vec<IndexName>, OutOfMemory>
    ensures { IfOk result (λ names. map index_seen names.items ≡ index_html) }
{
    let mut pieces = Vec::new(alloc);
    pieces.push(Piece::Literal(ByteText::from_slice(alloc, b"index.html")?))?;
    let mut names = Vec::new(alloc);
    names.push(IndexName {
        text: Value::from_pieces(pieces),
        is_path: false,
    })?;
    Ok(names)
}

fn evaluated(
    alloc: Global,
    text: &Value,
    main: &Main,
    request: &Request,
    vars: &VarTable,
) -> Result<ByteText, EvalFault>
    ensures ok { IfOk result (λ bytes.
        fit (value_text main.now request.now vars.now text.now) ≡ Some bytes) }
    ensures too_long { result ≡ Err EvalFault.TooLong
        → fit (value_text main.now request.now vars.now text.now) ≡ None }
{
    let mut bytes = ByteText::new(alloc);
    text.eval(alloc, main, request, vars, &mut bytes)?;
    Ok(bytes)
}

impl IndexState {
    /// A search before its first name.
    pub fn new() -> Self
        ensures { (main : MainView) (s : Standing) (names : List NameView) (item : Item)
            → index_told main s names result item ≡ indexed main s names }
    {
        IndexState {
            passed: 0,
            asked: None,
        }
    }

    /// Goes on with the node that the files told of the path that was asked for last; none is told before the first. Of a
    /// path that isn't told nothing is there.
    ///
    /// # Errors
    /// `TooLong` where an evaluated text has more than 16384 bytes.
    pub fn next(
        &mut self,
        alloc: Global,
        answer: Option<Node>,
        names: &[IndexName],
        scene: &Scene<'_>,
    ) -> Result<IndexStep, EvalFault>
        ensures step { IfOk result (λ step. (s : Standing) (item : Item)
            → let vars = scene.now.vars.now in let main = scene.now.main.now in
            IsAt scene.now.request.now scene.now.place.now s
            → node_of item ≡ unwrap_or answer Missing
            → settled (index_told main s (map index_seen names.now) self.old item) vars
            ≡ settled (index_left main s (map index_seen names.now) self.new step) vars) }
        ensures too_long { result ≡ Err EvalFault.TooLong → (s : Standing) (item : Item)
            → let vars = scene.now.vars.now in let main = scene.now.main.now in
            IsAt scene.now.request.now scene.now.place.now s
            → node_of item ≡ unwrap_or answer Missing
            → settled (index_told main s (map index_seen names.now) self.old item) vars
            ≡ (Done (decided s (Fails 500)), vars) }
        ensures unfit { result ≡ Err EvalFault.TooLong → IsIndexUnfit scene.now.main.now
            scene.now.request.now scene.now.vars.now scene.now.place.now
            (map index_seen names.now) self.new.passed }
    {
        let place = scene.place;
        let main = scene.main;
        let request = scene.request;
        let vars = scene.vars;
        match self.asked.take() {
            Some(path) => {
                if is_file(answer.unwrap_or(Node::Missing)) {
                    return Ok(IndexStep::Redirect(path));
                }
                let step = self.search(alloc, names, place, main, request, vars)?;
                Ok(step)
            }
            None => {
                let step = self.search(alloc, names, place, main, request, vars)?;
                Ok(step)
            }
        }
    }

    /// Takes up the names that come next, up to one that is a path of the site or whose file may be there.
    fn search(
        &mut self,
        alloc: Global,
        names: &[IndexName],
        place: &FileRoot,
        main: &Main,
        request: &Request,
        vars: &VarTable,
    ) -> Result<IndexStep, EvalFault>
        ensures step { IfOk result (λ step. (s : Standing) → IsAt request.now place.now s
            → settled (indexed_from main.now s (map index_seen names.now) self.old.passed) vars.now
            ≡ settled (index_left main.now s (map index_seen names.now) self.new step) vars.now) }
        ensures too_long { result ≡ Err EvalFault.TooLong → (s : Standing)
            → IsAt request.now place.now s
            → settled (indexed_from main.now s (map index_seen names.now) self.old.passed) vars.now
            ≡ (Done (decided s (Fails 500)), vars.now) }
        ensures unfit { result ≡ Err EvalFault.TooLong → IsIndexUnfit main.now request.now
            vars.now place.now (map index_seen names.now) self.new.passed }
    {
        fit_value_settles();
        item_settles();
        while self.passed < names.len() {
            let at = self.passed;
            let name = &names[at];
            self.passed = at + 1;
            if name.is_path {
                let path = evaluated(alloc, &name.text, main, request, vars)?;
                return Ok(IndexStep::Redirect(path));
            }
            let front = request.path.as_slice();
            let found = turn_of(alloc, front, &name.text, place, main, request, vars)?;
            match found {
                Some(turn) => {
                    self.asked = Some(turn.uri);
                    return Ok(IndexStep::Probe(turn.path));
                }
                None => {}
            }
        }
        Ok(IndexStep::NoneFound)
    }
}
