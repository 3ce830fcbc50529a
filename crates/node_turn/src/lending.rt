// The main request, which a family keeps once: it is lent to the node that runs.
ghost use Rattle.std.specs.Prelude.{◌≡◌};
ghost use Rattle.node_turn.specs.Nodes.{lender, lent, of_method};

use crate::slot::swap;
use page_body::ngx_variables::Main;
use request_reply::request_phases::Phases;

/// Lets the main requests of a family and of a node's phases change places, but for their methods:
/// the method is a node's own. What is lent so is given back by the same.
pub fn lend(main: &mut Main, phases: &mut Phases)
    ensures main { main.new ≡ of_method main.old.method phases.old.main }
    ensures phases { phases.new ≡ lent main.old phases.old }
{
    swap_parts(main, &mut phases.main);
}

/// Lends a main request to a node's phases, whose method stays their own: what may have memory changes places, and the
/// rest is copied, since nobody looks at what phases had of it before. `give_back` gives it back.
pub(crate) fn lend_to(main: &mut Main, phases: &mut Phases)
    ensures main { main.new ≡ lender main.old phases.old.main }
    ensures phases { phases.new ≡ lent main.old phases.old }
{
    let other = &mut phases.main;
    swap_texts(main, other);
    other.version = main.version;
    other.local = main.local;
    other.peer = main.peer;
    other.moment = main.moment;
    other.tree = main.tree;
}

/// Gives back what was lent.
pub(crate) fn give_back(main: &mut Main, phases: &mut Phases)
    ensures main { main.new ≡ lender main.old phases.old.main }
    ensures phases { phases.new ≡ record phases.old {
      main = lender phases.old.main main.old;
    } }
{
    swap_texts(main, &mut phases.main);
}

/// Lets the parts of two main requests that may have memory change places, but for their methods.
fn swap_texts(one: &mut Main, other: &mut Main)
    ensures one { one.new ≡ lender one.old other.old }
    ensures other { other.new ≡ lender other.old one.old }
{
    swap(&mut one.asked, &mut other.asked);
    swap(&mut one.target, &mut other.target);
    swap(&mut one.host, &mut other.host);
    swap(&mut one.server_name, &mut other.server_name);
    swap(&mut one.date, &mut other.date);
    swap(&mut one.fields, &mut other.fields);
    swap(&mut one.folder, &mut other.folder);
}

/// Lets all parts of two main requests change places, but for their methods: part by part, since
/// each is small.
fn swap_parts(one: &mut Main, other: &mut Main)
    ensures one { one.new ≡ of_method one.old.method other.old }
    ensures other { other.new ≡ of_method other.old.method one.old }
{
    swap(&mut one.asked, &mut other.asked);
    swap(&mut one.version, &mut other.version);
    swap(&mut one.target, &mut other.target);
    swap(&mut one.host, &mut other.host);
    swap(&mut one.server_name, &mut other.server_name);
    swap(&mut one.local, &mut other.local);
    swap(&mut one.peer, &mut other.peer);
    swap(&mut one.moment, &mut other.moment);
    swap(&mut one.tree, &mut other.tree);
    swap(&mut one.date, &mut other.date);
    swap(&mut one.fields, &mut other.fields);
    swap(&mut one.folder, &mut other.folder);
}

/// Lets the methods alone of the two change places: so what a node's phases see of the main request
/// is the family's, with no copy of it. What is lent so is given back by the same.
pub(crate) fn lend_method(main: &mut Main, phases: &mut Phases)
    ensures main { main.new ≡ of_method phases.old.main.method main.old }
    ensures phases { phases.new ≡ record phases.old {
      main = of_method main.old.method phases.old.main;
    } }
{
    swap(&mut main.method, &mut phases.main.method);
}
