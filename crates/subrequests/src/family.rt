// A request and its subrequests.
ghost use Rattle.std.specs.Prelude.{◌≡◌, ℕ, ◌+◌, List, length, IfOk, OnOk, None, true, false, slice_get, if◌then◌else◌};
ghost use Rattle.file_tree.specs.Tree.{Trees, text_of};
ghost use Rattle.ngx_pattern.specs.Pattern.{Pattern as SetPattern};
ghost use Rattle.family_order.specs.Items.{IsWell};
ghost use Rattle.request_meaning.specs.Serving.{World};
ghost use Rattle.node_line.specs.request_phases.Rounds.{IsGround};
ghost use Rattle.node_line.specs.request_phases.declared.ground.Ground.{Ground as GroundView};
ghost use Rattle.site_model.specs.declared.site.Site.{Site as SiteRow};
ghost use Rattle.node_line.specs.node_turn.Stages.{is_in_row as in_row, is_placing, is_serving, is_turning, item_asked, may_fetch};
ghost use Rattle.subrequests.specs.Families.{are_done as are_done_nodes, goes_on_at, in_row_at, is_last as is_last_node, over_node};
ghost use Rattle.node_seats.specs.Seats.{is_seated as has_seat};
ghost use Rattle.std.specs.List.{list_all};
ghost use Rattle.subrequests.specs.Moved.{BeginsWith, Comes, IsDone, IsFromAt, IsWhole, Keeps, OverrunsBy, Steps, files, fits_at, meant, stands};
ghost use Rattle.family_nodes.specs.Runs.{runs_at};
ghost use Rattle.subrequests.specs.Wants.{Stands};
ghost use Rattle.subrequests.specs.Ran.{RunsTo, StepsTo};
ghost use Rattle.subrequests.specs.declared.family.Stepped.TheVariants.{On as GoesOn, Rests as RestsNow};

use crate::child::blank_main;
use crate::next_step::{Next, is_in_row, next_of};
use crate::past::put_all_past;
use byte_text::{ByteText, OutOfMemory};
use family_nodes::{Nodes, can_run, hears};
use family_order::shows_the_same;
use file_tree::{Ask, JobAnswer};
use http_types::Method;
use ngx_pattern::PatternSet;
use ngx_variables::{Main, VarTable};
use node_line::comes;
use node_line::family_rest::{quiet_is_exact, row_tells_still};
use node_line::node_turn::{
    Node, Place, Stage, Turn, Withheld, answering, fetches, lend, places, takes, turns,
};
use node_line::request_phases::{Conclusion, Ground, Phases};
use node_line::ssi_values::Table;
use node_seats::is_seated;
use postpone_filter::Order;
use std::alloc::Global;

/// A request and its subrequests: the main request, which is lent to the node that runs; the table
/// of variables, which all share; the order in which their bytes leave; the nodes by their numbers,
/// of which the request's own is 0; and the number of the tree of files from which they are
/// answered.
#[derive(Drop)]
pub struct Family {
    pub main: Main,
    pub vars: VarTable,
    pub order: Order,
    pub nodes: Nodes,
    pub tree: u64,
}

/// No more nodes than these make one response, the main request among them.
pub(crate) const MOST_NODES: usize = 1001;

/// From the beginning there is room for this many nodes.
const FEW_NODES: usize = 12;

/// How many levels of subrequests a main request may open.
const MOST_LEFT: u32 = 50;

/// No node does more than this in one go: far more than the parts of a block of its page.
const MOST_STEPS: u32 = u32::MAX;

/// What the phases of a main request came to: what its body is; the job that told of its file, and
/// the number of the tree from which it is answered; all bytes of that file that are known, or
/// none; and how many subrequests were opened before, which decided on its access and are over.
#[derive(Drop)]
pub struct Decided {
    pub outcome: Conclusion,
    pub ask: Ask,
    pub tree: u64,
    pub known: ByteText,
    pub opened: u8,
}

/// What became of a node by what it did.
#[derive(Clone, Copy)]
pub(crate) enum Stepped {
    /// It goes on.
    On,
    /// It rests.
    Rests,
    /// It asks for one subrequest more than are opened.
    TooMany,
}

/// What became of a node that ran.
#[derive(Clone, Copy, Debug, PartialEq, Eq)]
pub enum Ran {
    /// It rests: it asks a job, waits for a subrequest, has a full buffer, or has come to its
    /// answer.
    Rests,
    /// It asks for one subrequest more than the thousand that are opened for one response.
    TooMany,
}

fn on_or_rests(on: bool) -> Stepped
    ensures { result ≡ (if on then GoesOn else RestsNow) }
{
    if on { Stepped::On } else { Stepped::Rests }
}

/// Whether a node is over.
fn is_over(node: &Node) -> bool
    ensures { result ≡ over_node node.now }
{
    node.over
}

fn all_over(nodes: &[Node]) -> bool
    ensures { result ≡ list_all over_node nodes.now }
{
    nodes.iter().all(|node| is_over(node))
}

/// Whether a node has come to its answer, and no subrequest of it goes on.
fn is_last(node: &Node) -> bool
    ensures { result ≡ is_last_node node.now }
{
    match &node.stage {
        Stage::Ends(_) => {
            !node.over && (is_in_row(&node.place) && (node.asks.is_none() && node.children == 0))
        }
        _ => false,
    }
}

/// Whether the first of these nodes has come to its answer, and all others are over.
fn are_done(nodes: &[Node]) -> bool
    ensures { result ≡ are_done_nodes nodes.now }
{
    match nodes {
        [] => false,
        [first, others @ ..] => is_last(first) && all_over(others),
    }
}

/// A subrequest of a node is over.
fn put_end(node: &mut Node, id: u32)
    ensures { node.new ≡ record node.old { children = node.new.children; waits = node.new.waits } }
{
    node.children = node.children.saturating_sub(1);
    if node.waits == Some(id) {
        node.waits = None;
    }
}

impl Family {
    /// A main request whose phases came to an answer: its body is to come. The subrequests that were
    /// opened before it are over, and have the first numbers after its own.
    ///
    /// # Errors
    /// `OutOfMemory`.
    pub fn begin(
        alloc: Global,
        ground: &Ground<'_>,
        phases: Phases,
        vars: VarTable,
        decided: Decided,
    ) -> Result<Family, OutOfMemory>
        ensures begins { IfOk result (λ f. BeginsWith ground.now phases vars decided.outcome decided.known f) }
        ensures files { IfOk result (λ f. (trees : Trees) →
            files trees f 0 ≡ text_of (item_asked trees decided.ask)) }
        ensures whole { IfOk result (λ f. IsWhole f) }
        ensures tree { IfOk result (λ f. f.tree ≡ decided.tree) }
        ensures nodes { IfOk result (λ f. length f.nodes ≡ 1 + decided.opened) }
    {
        shows_the_same();
        let Decided {
            outcome,
            ask,
            tree,
            known,
            opened,
        } = decided;
        let mut phases = phases;
        let stage = answering(
            alloc,
            ground,
            &phases,
            MOST_LEFT,
            Table::new(alloc),
            outcome,
            known,
        )?;
        let mut main = blank_main(alloc, Method::Get);
        lend(&mut main, &mut phases);
        let mut nodes = Nodes::new(alloc);
        nodes.reserve(FEW_NODES)?;
        nodes.push(Node {
            parent: 0,
            left: MOST_LEFT,
            children: 0,
            waits: None,
            asks: None,
            place: Place::Row,
            before: Withheld::new(alloc),
            phases,
            ask,
            start: 0,
            stage,
            over: false,
        })?;
        let mut order = Order::new(alloc)?;
        put_all_past(alloc, &mut order, &mut nodes, opened)?;
        Ok(Family {
            main,
            vars,
            order,
            nodes,
            tree,
        })
    }

    /// Whether all nodes are over but that of the main request, which has come to its answer.
    pub fn is_done(&self) -> bool
        ensures exact { result ≡ are_done_nodes self.now.nodes }
        ensures done { result ≡ true → IsWhole self.now
            → ((patterns : List SetPattern) (g : GroundView) → IsDone patterns g self.now) }
    {
        are_done(self.nodes.as_slice())
    }

    /// A node goes on with its phases.
    fn turn_at(
        &mut self,
        alloc: Global,
        ground: &Ground<'_>,
        patterns: &mut PatternSet,
        at: u32,
    ) -> Result<(), OutOfMemory>
        requires ground { IsGround ground.now }
        requires whole { IsWhole self.old }
        requires there { stands is_turning self.old at }
        requires seated { has_seat self.old.nodes at (slice_get self.old.nodes at)
            ≡ true }
        ensures steps { OnOk result (Steps patterns.old ground.now self.old self.new) }
        ensures whole { OnOk result (IsWhole self.new) }
        ensures tree { OnOk result (self.new.tree ≡ self.old.tree) }
        ensures kept { patterns.new ≡ patterns.old }
    {
        shows_the_same();
        let node = self.nodes.node_mut(at as usize);
        turns(
            alloc,
            ground,
            patterns,
            &mut self.main,
            &mut self.vars,
            node,
            self.tree,
        )?;
        Ok(())
    }

    /// A node places bytes, as many as its buffer has room for: whether it may go on.
    fn place_at(&mut self, alloc: Global, at: u32) -> Result<bool, OutOfMemory>
        requires whole { IsWhole self.old }
        requires there { stands is_placing self.old at }
        requires seated { has_seat self.old.nodes at (slice_get self.old.nodes at)
            ≡ true }
        requires row { in_row_at (slice_get self.old.nodes at) ≡ true }
        ensures steps { OnOk result ((patterns : List SetPattern) (g : GroundView) →
            Steps patterns g self.old self.new) }
        ensures whole { OnOk result (IsWhole self.new) }
        ensures tree { OnOk result (self.new.tree ≡ self.old.tree) }
        ensures rests { IfOk result (λ on. on
            ≡ runs_at self.new.order at (slice_get self.new.nodes at)) }
    {
        shows_the_same();
        let node = self.nodes.node_mut(at as usize);
        places(alloc, &mut self.order, at, node)?;
        Ok(can_run(&self.order, at, self.nodes.node_at(at as usize)))
    }

    /// Bytes of a node with a stub come.
    #[inline(never)]
    fn come_at(&mut self, alloc: Global, at: u32) -> Result<(), OutOfMemory>
        requires whole { IsWhole self.old }
        requires there { stands is_placing self.old at }
        requires seated { has_seat self.old.nodes at (slice_get self.old.nodes at)
            ≡ true }
        requires apart { in_row_at (slice_get self.old.nodes at) ≡ false }
        ensures steps { OnOk result ((patterns : List SetPattern) (g : GroundView) →
            Steps patterns g self.old self.new) }
        ensures whole { OnOk result (IsWhole self.new) }
        ensures tree { OnOk result (self.new.tree ≡ self.old.tree) }
    {
        shows_the_same();
        let node = self.nodes.node_mut(at as usize);
        comes(alloc, &mut self.order, at, node)?;
        Ok(())
    }

    /// A node asks for a block of its file.
    fn fetch_at(&mut self, alloc: Global, at: u32) -> Result<(), OutOfMemory>
        requires whole { IsWhole self.old }
        requires there { stands may_fetch self.old at }
        requires seated { has_seat self.old.nodes at (slice_get self.old.nodes at)
            ≡ true }
        ensures steps { OnOk result ((patterns : List SetPattern) (g : GroundView) →
            Steps patterns g self.old self.new) }
        ensures whole { OnOk result (IsWhole self.new) }
        ensures tree { OnOk result (self.new.tree ≡ self.old.tree) }
        ensures rests { OnOk result (runs_at self.new.order at (slice_get self.new.nodes at)
            ≡ false) }
    {
        shows_the_same();
        let node = self.nodes.node_mut(at as usize);
        fetches(alloc, node)?;
        Ok(())
    }

    /// A node takes up the next part of its page: whether that is no subrequest, or one that may be
    /// opened.
    fn take_at(&mut self, alloc: Global, ground: &Ground<'_>, at: u32) -> Result<bool, OutOfMemory>
        requires whole { IsWhole self.old }
        requires there { stands is_serving self.old at }
        requires seated { has_seat self.old.nodes at (slice_get self.old.nodes at)
            ≡ true }
        ensures steps { (patterns : List SetPattern) → IfOk result (λ on. on ≡ true →
            Steps patterns ground.now self.old self.new) }
        ensures whole { IfOk result (λ on. on ≡ true → IsWhole self.new) }
        ensures overruns { (patterns : List SetPattern) → IfOk result (λ on. on ≡ false →
            OverrunsBy patterns ground.now self.old) }
        ensures tree { OnOk result (self.new.tree ≡ self.old.tree) }
    {
        shows_the_same();
        let node = self.nodes.node_mut(at as usize);
        let turn = takes(alloc, ground, &mut self.main, &self.vars, node)?;
        match turn {
            Turn::On => Ok(true),
            Turn::Opens(child) => {
                if node.left == 0 {
                    return Err(OutOfMemory);
                }
                if is_in_row(&node.place) {
                    if self.nodes.len() >= MOST_NODES {
                        return Ok(false);
                    }
                    self.open_at(alloc, ground, at, child)?;
                    return Ok(true);
                }
                if self.nodes.len() >= MOST_NODES {
                    return Ok(false);
                }
                self.inner_at(alloc, ground, at, child)?;
                Ok(true)
            }
            Turn::Asks(child) => {
                if node.left == 0 {
                    return Err(OutOfMemory);
                }
                if self.nodes.len() >= MOST_NODES {
                    return Ok(false);
                }
                self.ask_at(alloc, ground, at, child)?;
                Ok(true)
            }
        }
    }

    /// A node has one subrequest less that goes on.
    fn tell(&mut self, at: u32, child: u32)
        requires whole { IsWhole self.old }
        ensures steps { (patterns : List SetPattern) (g : GroundView) →
            Steps patterns g self.old self.new }
        ensures whole { IsWhole self.new }
        ensures over { (j : ℕ) → goes_on_at (slice_get self.old.nodes j) ≡ false
            → goes_on_at (slice_get self.new.nodes j) ≡ false }
        ensures tree { self.new.tree ≡ self.old.tree }
    {
        shows_the_same();
        let at = at as usize;
        if at < self.nodes.len() {
            put_end(self.nodes.node_mut(at), child);
        }
    }

    /// A node is told what it asked for: what is at a path, or a block of its file.
    ///
    /// # Errors
    /// `OutOfMemory`; the family is then not to go on.
    pub fn hear(&mut self, alloc: Global, at: u32, answer: JobAnswer<'_>) -> Result<(), OutOfMemory>
        requires whole { IsWhole self.old }
        requires fits { fits_at self.old.tree (slice_get self.old.nodes at) answer ≡ true }
        ensures keeps { OnOk result ((w : World) (patterns : List SetPattern) (site : SiteRow)
            (trees : Trees) → IsFromAt trees (slice_get self.old.nodes at) answer.entry
            → IsWell (meant w patterns site (files trees self.old) self.old)
            → Keeps w (trees self.old.tree) (meant w patterns site (files trees self.old) self.old)
            (meant w patterns site (files trees self.new) self.new) self.old.vars) }
        ensures comes { OnOk result ((w : World) (patterns : List SetPattern) (site : SiteRow)
            (texts : ℕ → List ℕ) → Comes w patterns site self.old self.new texts) }
        ensures whole { OnOk result (IsWhole self.new) }
        ensures size { OnOk result (length self.new.nodes ≡ length self.old.nodes) }
        ensures others { OnOk result ((self.new.tree ≡ self.old.tree)
            × (self.new.vars ≡ self.old.vars) × (self.new.order ≡ self.old.order)) }
    {
        shows_the_same();
        quiet_is_exact();
        row_tells_still();
        if !is_seated(self.nodes.as_slice(), at) {
            return Err(OutOfMemory);
        }
        let node = self.nodes.node_mut(at as usize);
        hears(alloc, node, answer)?;
        Ok(())
    }

    /// What a node with this number does next.
    fn next_at(&self, at: u32) -> Next
        ensures { Stands self.now at result }
    {
        next_of(self.nodes.as_slice(), at)
    }

    /// A node does this, where it goes on by itself. Steps that are rare aren't inlined here: their
    /// values would cost the others.
    fn goes(
        &mut self,
        alloc: Global,
        ground: &Ground<'_>,
        patterns: &mut PatternSet,
        at: u32,
        next: Next,
    ) -> Result<Stepped, OutOfMemory>
        requires ground { IsGround ground.now }
        requires whole { IsWhole self.old }
        requires stands { Stands self.old at next }
        requires seated { has_seat self.old.nodes at (slice_get self.old.nodes at)
            ≡ true }
        ensures stepped { IfOk result (λ stepped.
            StepsTo patterns.old ground.now self.old self.new at stepped) }
        ensures tree { OnOk result (self.new.tree ≡ self.old.tree) }
        ensures kept { patterns.new ≡ patterns.old }
    {
        match next {
            Next::Turns => {
                self.turn_at(alloc, ground, patterns, at)?;
                Ok(Stepped::On)
            }
            Next::Fetches => {
                self.fetch_at(alloc, at)?;
                Ok(Stepped::Rests)
            }
            Next::Places => Ok(on_or_rests(self.place_at(alloc, at)?)),
            Next::Takes => {
                if !self.take_at(alloc, ground, at)? {
                    return Ok(Stepped::TooMany);
                }
                Ok(Stepped::On)
            }
            Next::Comes => {
                if self.joins_by(alloc, at)? {
                    return Ok(Stepped::On);
                }
                self.come_at(alloc, at)?;
                Ok(Stepped::On)
            }
            Next::Ends => {
                let parent = self.close_at(alloc, at);
                self.tell(parent, at);
                Ok(Stepped::Rests)
            }
            Next::Decides => {
                let parent = self.decide_at(at)?;
                self.tell(parent, at);
                Ok(Stepped::Rests)
            }
            Next::Gathers => {
                self.gather_at(at)?;
                Ok(Stepped::On)
            }
            Next::Frees => {
                self.free_at(at)?;
                Ok(Stepped::On)
            }
            Next::Returns => {
                if self.joins_by(alloc, at)? {
                    return Ok(Stepped::On);
                }
                let parent = self.return_at(alloc, at)?;
                self.tell(parent, at);
                Ok(Stepped::Rests)
            }
            Next::Waits => Ok(Stepped::Rests),
        }
    }

    /// A node does what it does next.
    fn step(
        &mut self,
        alloc: Global,
        ground: &Ground<'_>,
        patterns: &mut PatternSet,
        at: u32,
    ) -> Result<Stepped, OutOfMemory>
        requires ground { IsGround ground.now }
        requires whole { IsWhole self.old }
        ensures stepped { IfOk result (λ stepped.
            StepsTo patterns.old ground.now self.old self.new at stepped) }
        ensures tree { OnOk result (self.new.tree ≡ self.old.tree) }
        ensures kept { patterns.new ≡ patterns.old }
    {
        let next = self.next_at(at);
        if let Next::Waits = next {
            return Ok(Stepped::Rests);
        }
        if !is_seated(self.nodes.as_slice(), at) {
            return Err(OutOfMemory);
        }
        Ok(self.goes(alloc, ground, patterns, at, next)?)
    }

    /// A node rests: what is known of it is kept; and of its parent, if that was told of its end.
    fn rests(&mut self, at: u32)
        ensures { self.new ≡ self.old }
    {
        if (at as usize) < self.nodes.len() {
            let node = self.nodes.node_at(at as usize);
            let (parent, over) = (node.parent, node.over);
            self.nodes.mark(at);
            if over {
                self.nodes.mark(parent);
            }
        }
    }

    /// Runs a node on: until it asks a job, waits for a subrequest, has a full buffer, or has come
    /// to its answer; or until more than a thousand subrequests are asked for, after which the
    /// family isn't to go on.
    ///
    /// # Errors
    /// `OutOfMemory`; the family is then not to go on.
    pub fn run(
        &mut self,
        alloc: Global,
        ground: &Ground<'_>,
        patterns: &mut PatternSet,
        at: u32,
    ) -> Result<Ran, OutOfMemory>
        requires ground { IsGround ground.now }
        requires whole { IsWhole self.old }
        ensures ran { IfOk result (λ ran.
            RunsTo patterns.old ground.now self.old self.new at ran) }
        ensures tree { OnOk result (self.new.tree ≡ self.old.tree) }
        ensures kept { patterns.new ≡ patterns.old }
    {
        for _ in 0..MOST_STEPS {
            match self.step(alloc, ground, patterns, at)? {
                Stepped::On => {}
                Stepped::Rests => {
                    self.rests(at);
                    return Ok(Ran::Rests);
                }
                Stepped::TooMany => return Ok(Ran::TooMany),
            }
        }
        Err(OutOfMemory)
    }
}
