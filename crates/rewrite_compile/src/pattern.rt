// Directives whose patterns are in the site's set.
ghost use Rattle.std.specs.Prelude.{◌≡◌, ◌++◌, ◌∷◌, [], true, false, length, IfOk, OnOk, OnErr};
ghost use Rattle.std.specs.List.{list_any};
ghost use Rattle.std.specs.Result.{IsErrOf};
ghost use Rattle.ngx_pattern.specs.Makers.{Rose};
ghost use Rattle.rewrite_compile.specs.Numbered.{test_at, step_at, pattern_in, patterns_in_test, patterns_in, is_bad};

use crate::raw::{RawCondition, RawPattern, RawStep, RawTest};
use ngx_pattern::{PatternFault, PatternMaker, PatternSet};
use site_model::{RewriteStep, Test};

/// Adds a pattern to the set, and gives its number.
fn add<M: PatternMaker>(
    maker: &mut M,
    patterns: &mut PatternSet,
    pattern: &RawPattern,
) -> Result<u32, PatternFault>
    ensures number { IfOk result (λ number. number ≡ length patterns.old) }
    ensures grown { OnOk result (patterns.new ≡ patterns.old ++ pattern_in pattern.now ∷ []) }
    ensures fine { OnOk result (is_bad (pattern_in pattern.now) ≡ false) }
    ensures kept { OnErr result (patterns.new ≡ patterns.old) }
    ensures bad { IsErrOf result PatternFault.Bad → is_bad (pattern_in pattern.now) ≡ true }
    ensures too_big { IsErrOf result PatternFault.TooBig
        → Rose (M.refusals maker.old) (M.refusals maker.new) }
    ensures spared { OnOk result (M.refusals maker.new ≡ M.refusals maker.old) }
{
    let number = match u32::try_from(patterns.len()) {
        Ok(number) => number,
        Err(_) => return Err(PatternFault::OutOfMemory),
    };
    let _id = patterns.add(maker, pattern.text.as_slice(), pattern.nocase)?;
    Ok(number)
}

fn test_in<M: PatternMaker>(
    maker: &mut M,
    patterns: &mut PatternSet,
    test: RawTest,
) -> Result<Test, PatternFault>
    ensures ok { IfOk result (λ made. made ≡ test_at (length patterns.old) test) }
    ensures grown { OnOk result (patterns.new ≡ patterns.old ++ patterns_in_test test) }
    ensures fine { OnOk result (list_any is_bad (patterns_in_test test) ≡ false) }
    ensures kept { OnErr result (patterns.new ≡ patterns.old) }
    ensures bad { IsErrOf result PatternFault.Bad
        → list_any is_bad (patterns_in_test test) ≡ true }
    ensures too_big { IsErrOf result PatternFault.TooBig
        → Rose (M.refusals maker.old) (M.refusals maker.new) }
    ensures patterned { OnErr result (length (patterns_in_test test) ≡ 1) }
    ensures spared { OnOk result (M.refusals maker.new ≡ M.refusals maker.old) }
{
    match test {
        RawTest::IsSet(variable) => Ok(Test::IsSet(variable)),
        RawTest::Equals { variable, text } => Ok(Test::Equals { variable, text }),
        RawTest::Matches { variable, pattern } => {
            let pattern = add(maker, patterns, &pattern)?;
            Ok(Test::Matches { variable, pattern })
        }
        RawTest::OnFile { test, path } => Ok(Test::OnFile { test, path }),
    }
}

/// The directive of a program whose pattern, if it has one, is added to the set under the next number. The block of an
/// `if` has `block` directives, and in a location its level has the number `level`.
///
/// # Errors
/// `Bad` where the pattern has no expression, `TooBig` where the maker refused it; the set then stays as it was.
pub fn step_in<M: PatternMaker>(
    maker: &mut M,
    patterns: &mut PatternSet,
    raw: RawStep,
    block: u32,
    level: Option<u32>,
) -> Result<RewriteStep, PatternFault>
    ensures ok { IfOk result (λ step. step ≡ step_at (length patterns.old) block level raw) }
    ensures grown { OnOk result (patterns.new ≡ patterns.old ++ patterns_in raw) }
    ensures fine { OnOk result (list_any is_bad (patterns_in raw) ≡ false) }
    ensures kept { OnErr result (patterns.new ≡ patterns.old) }
    ensures bad { IsErrOf result PatternFault.Bad → list_any is_bad (patterns_in raw) ≡ true }
    ensures too_big { IsErrOf result PatternFault.TooBig
        → Rose (M.refusals maker.old) (M.refusals maker.new) }
    ensures patterned { OnErr result (length (patterns_in raw) ≡ 1) }
    ensures spared { OnOk result (M.refusals maker.new ≡ M.refusals maker.old) }
{
    match raw {
        RawStep::Set { name, text } => Ok(RewriteStep::Set { name, text }),
        RawStep::If(RawCondition { test, negated }) => {
            let test = test_in(maker, patterns, test)?;
            Ok(RewriteStep::If {
                test,
                negated,
                block,
                level,
            })
        }
        RawStep::Rewrite {
            pattern,
            to,
            is_url,
            flag,
        } => {
            let pattern = add(maker, patterns, &pattern)?;
            Ok(RewriteStep::Rewrite {
                pattern,
                to,
                is_url,
                flag,
            })
        }
        RawStep::Return { code, text } => Ok(RewriteStep::Return { code, text }),
        RawStep::Stop => Ok(RewriteStep::Stop),
    }
}
