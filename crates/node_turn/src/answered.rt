// What a request answers, beside its body.
ghost use Rattle.std.specs.Prelude.{◌≡◌, List, ℕ};
ghost use Rattle.request_reply.specs.request_meaning.Serving.{Prepared};
ghost use Rattle.request_reply.specs.request_phases.declared.state.Phases.{Phases as PhasesView};
ghost use Rattle.page_body.specs.site_model.declared.site.Site.{Site as SiteRow};
ghost use Rattle.request_reply.specs.Replies.{IsReply, body_seen};
ghost use Rattle.node_turn.specs.Nodes.{IsFor, answer_seen};

use crate::said::Said;
use filter_api::Facts;
use request_reply::{Body, Reply};

/// What a request answers beside its body: what the head of a response would say. A subrequest has no head: of it the status
/// alone is looked at.
#[derive(Drop)]
pub struct Answered {
    pub status: u16,
    pub said: Said,
}

/// A reply by its parts: what is answered, what filters are told of the body where one acts on it,
/// and the body.
#[derive(Drop)]
pub(crate) struct Parted {
    pub(crate) answered: Answered,
    pub(crate) facts: Option<Facts>,
    pub(crate) body: Body,
}

/// Parts a reply.
#[inline(always)]
pub(crate) fn apart(reply: Reply<'_>) -> Parted
    ensures { (site : SiteRow) (p : PhasesView) (bytes : List ℕ) (prepared : Prepared) →
        IsFor site p prepared.answer → IsReply reply.entry bytes prepared
        → (answer_seen site p result.answered ≡ prepared.answer)
        × (body_seen bytes result.facts result.body ≡ prepared.body) }
{
    let said = Said::nothing().by(&reply);
    Parted {
        answered: Answered {
            status: reply.status,
            said,
        },
        facts: reply.facts,
        body: reply.body,
    }
}
