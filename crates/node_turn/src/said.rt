// What a head would say, for the proofs.
ghost use Rattle.std.specs.Prelude.{ℕ, Bool, List, Option};
ghost use Rattle.std.specs.Coded.{coded_ℕ, coded_bool, coded_list, coded_option};
ghost use base.Fml.{ftrue};

use request_reply::Reply;
use std::marker::Model;

/// What the head of a response would say beside its status. It exists in the proofs alone: a value has no bytes.
#[derive(Drop)]
pub struct Said {
    pub ghost kind: { Option (List ℕ) } by { coded_option (coded_list coded_ℕ) },
    pub ghost length: { Option ℕ } by { coded_option coded_ℕ },
    pub ghost known: { Bool } by { coded_bool },
    pub ghost modified: { Option ℕ } by { coded_option coded_ℕ },
    pub ghost location: { Option (List ℕ) } by { coded_option (coded_list coded_ℕ) },
    pub ghost closes: { Bool } by { coded_bool },
    pub ghost gone: { Bool } by { coded_bool },
    pub ghost read: { Option ℕ } by { coded_option coded_ℕ },
}

impl Model for Said {
    ghost also_owns = { λ _. ftrue };
}

impl Said {
    ghost use Rattle.std.specs.Prelude.{◌≡◌, false};
    ghost use Rattle.node_turn.specs.Said.{IsSaidBy};

    /// Nothing is known of it.
    pub(crate) fn nothing() -> Said
        ensures { result.known ≡ false }
    {
        Said {}
    }

    /// What the head of this reply would say.
    #[inline(always)]
    pub(crate) fn by(&self, _reply: &Reply<'_>) -> Said
        ensures { IsSaidBy _reply.now result }
    {
        Said {}
    }
}
