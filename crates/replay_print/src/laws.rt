// Laws of printed scripts.
ghost use Rattle.std.specs.Prelude.{◌≡◌, Ok};
ghost use Rattle.replay_text.specs.declared.parts.Script.{Script};
ghost use Rattle.replay_text.specs.Grammar.{script_of};
ghost use Rattle.replay_print.specs.Printed.{IsScript, script_text};

/// A script printed from its parts reads back as them.
pub fn printed_reads_back()
    ensures { (s : Script) → IsScript s → script_of (script_text s) ≡ Ok s }
{}
