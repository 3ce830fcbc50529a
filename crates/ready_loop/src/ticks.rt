// Tells a core the clock's moment and the number of the newest tree.
ghost use Rattle.std.specs.Prelude.{◌≡◌, ◌≤◌, ◌++◌, ◌∷◌, ℕ, [], true, false, length, IfSome, Some, None, Option, List};
ghost use Rattle.http_types.specs.declared.words.Addr.{Addr as End};
ghost use Rattle.ngx_outside.specs.Views.{Course, Ticked, kept_moment};
ghost use Rattle.ngx_outside.specs.Seen.{LinksSeen};
ghost use Rattle.link_service.specs.Seen.{Grown, Tick};
ghost use Rattle.link_service.specs.Standing.{Kept, Marks};
ghost use Rattle.ready_loop.specs.Turns.{tick_at};
ghost use Rattle.ready_loop.specs.declared.ticks.Told.{Told};
ghost use Rattle.ngx_outside.specs.Records.{Adds, FileAnswer, LinkAnswer};
ghost use Rattle.link_service.specs.Tellings.{StandBeside, moments_told};

use link_service::{ticked, tree_told};
use ngx_outside::{Clock, EventCore, Files};

// Tells the core the number of the newest tree, where it was told another before.
fn tell_tree<E: EventCore, F: Files>(core: &mut E, files: &mut F, tree: Option<u64>) -> u64
    requires known { (E.seen core.old).now.tree ≤ (F.seen files.old).newest }
    requires told { IfSome tree (λ to. (E.seen core.old).now.tree ≡ to) }
    ensures views { (c : ℕ) → (E.seen core.new).view c ≡ (E.seen core.old).view c }
    ensures moment { (E.seen core.new).now.moment ≡ (E.seen core.old).now.moment }
    ensures tree { (E.seen core.new).now.tree ≡ result }
    ensures told { result ≡ (F.seen files.new).newest }
    ensures versions { Adds result (F.seen files.old).versions (F.seen files.new).versions }
    ensures grown { Grown (F.seen files.old) (F.seen files.new) }
    ensures same { ((F.seen files.new).tells ≡ (F.seen files.old).tells) ×
        ((F.seen files.new).answers ≡ (F.seen files.old).answers) }
    ensures beside { (links : Option (List LinkAnswer)) (files : Option (List FileAnswer))
        (clock : Option (List ℕ)) →
        StandBeside (E.seen core.old).events
        (E.seen core.new).events links links files files clock clock }
    ensures steady { ((E.seen core.new).terms ≡ (E.seen core.old).terms) ×
        (length (E.seen core.new).conns ≡ length (E.seen core.old).conns) }
    ensures refused { (E.seen core.new).refused ≡ (E.seen core.old).refused }
{
    let newest = files.version();
    if tree != Some(newest) {
        tree_told(core, newest);
    }
    newest
}

/// What the core was told last: the number of the tree, and the moment.
#[derive(Clone, Copy, Debug)]
pub struct Told {
    pub tree: u64,
    pub moment: u64,
}

fn tree_of(told: Option<Told>) -> Option<u64>
    ensures some { (t : Told) → told ≡ Some t → result ≡ Some t.tree }
    ensures none { told ≡ None → result ≡ None }
{
    match told {
        Some(told) => Some(told.tree),
        None => None,
    }
}

/// Tells the core the clock's moment, and the number of the newest tree where it rose. What it was told last is answered.
pub fn tick<E: EventCore, F: Files, C: Clock>(
    core: &mut E,
    files: &mut F,
    clock: &mut C,
    last: Option<Told>,
) -> Told
    requires known { (E.seen core.old).now.tree ≤ (F.seen files.old).newest }
    requires told { IfSome last (λ to. (E.seen core.old).now.tree ≡ to.tree) }
    ensures kept { (marks : Marks) (whole : ℕ → End → End → Course) (links : LinksSeen)
        (ticks : List Tick) → Kept marks whole (E.seen core.old) links (F.seen files.old) ticks →
        Kept marks whole (E.seen core.new) links (F.seen files.new) (ticks ++ tick_at result ∷ []) }
    ensures ticked { (c : ℕ) → Ticked (kept_moment result.moment) ((E.seen core.old).view c)
        ((E.seen core.new).view c) }
    ensures tree { ((E.seen core.new).now.tree ≡ result.tree) ×
        (result.tree ≡ (F.seen files.new).newest) }
    ensures moments { (C.seen clock.old).tells ≡ true →
        (C.seen clock.new).told ≡ (C.seen clock.old).told ++ result.moment ∷ [] }
    ensures versions { Adds result.tree (F.seen files.old).versions (F.seen files.new).versions }
    ensures tells { (C.seen clock.new).tells ≡ (C.seen clock.old).tells }
    ensures same { ((F.seen files.new).tells ≡ (F.seen files.old).tells) ×
        ((F.seen files.new).answers ≡ (F.seen files.old).answers) }
    ensures grown { (F.seen files.old).newest ≤ (F.seen files.new).newest }
    ensures beside { (links : Option (List LinkAnswer)) →
        StandBeside (E.seen core.old).events (E.seen core.new).events links links
        (F.seen files.old).answers (F.seen files.new).answers
        (moments_told (C.seen clock.old).tells (C.seen clock.old).told)
        (moments_told (C.seen clock.new).tells (C.seen clock.new).told) }
    ensures steady { (E.seen core.new).terms ≡ (E.seen core.old).terms }
{
    let moment = clock.now();
    ticked(core, moment);
    let tree = tell_tree(core, files, tree_of(last));
    Told { tree, moment }
}
