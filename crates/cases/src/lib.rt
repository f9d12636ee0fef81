//! The worked cases of the rules: one list, one computed test.

#![tactic(auto)]

ghost use Rattle.std.specs.Prelude.{◌≡◌, true, length};
ghost use Rattle.cases.specs.Cases.{cases, all_pass};

/// How many worked cases there are; each of them passes.
pub fn worked_cases() -> usize
    ensures passed { all_pass cases ≡ true }
    ensures counted { result ≡ length cases }
{
    36
}
