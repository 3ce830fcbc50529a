// Lines in the order of the text.
ghost use Rattle.std.specs.Prelude.{◌≡◌, ◌↔◌, true, Contains, AllPairs};
ghost use Rattle.source_lines.specs.Lines.{is_before};
ghost use Rattle.source_lines.specs.declared.line.Line.{Line as Place};

use crate::line::Line;

/// The same lines in the order of the text, each once.
pub fn in_order(mut lines: Vec<Line>) -> Vec<Line>
    ensures same { (l : Place) → Contains lines.items l ↔ Contains result.items l }
    ensures rising { AllPairs (λ a b. is_before a b ≡ true) result.items }
{
    lines.sort_unstable();
    lines.dedup();
    lines
}
