// Counts in slices of any length, by an entry of any number: `Tally` of tally.rt has eight counts and room for four numbers, by entry points.
// A module of its own: a function and a struct whose names differ in case alone cannot stand in one.
ghost use Rattle.std.specs.Prelude.{◌≡◌, set};
ghost use Rattle.sequences.specs.Tallies.{counted, noted as Tallies·noted, Tallied};

// One more at an index.
#[tactic(auto, using(crate::proofs::Counting::counts))]
fn count(counts: &mut [u32], i: usize)
    ensures { counts.new ≡ counted counts.old i }
{
    if i >= counts.len() {
        return;
    }
    let n = counts[i];
    if n < u32::MAX {
        counts[i] = n + 1;
    }
}

// Notes a number where there is room for it; how many are noted.
#[tactic(auto, using(crate::proofs::Counting::numbers))]
fn note(numbers: &mut [u32], n: usize, number: u32) -> usize
    ensures { (numbers.new ≡ set numbers.old n number) × (result ≡ Tallies·noted numbers.old n) }
{
    if n >= numbers.len() {
        return n;
    }
    numbers[n] = number;
    n + 1
}

// Counts a call of an entry; how many of the numbers of calls that differ are noted.
pub fn tally(
    seen: &mut [u32],
    agreed: &mut [u32],
    differ: &mut [u32],
    entry: usize,
    agrees: bool,
    noted: usize,
    number: u32,
) -> usize
    ensures seen_after { seen.new ≡ counted seen.old entry }
    ensures tallied { Tallied agreed.old differ.old entry agrees noted number agreed.new differ.new result }
{
    count(seen, entry);
    if agrees {
        count(agreed, entry);
        return noted;
    }
    note(differ, noted, number)
}
