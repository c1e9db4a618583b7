//! For planners of storage: of all sets of lost fragments of a code, by their size, how many are
//! recoverable, and how many fragments a rebuild of one reads. Beside it stands a Reed-Solomon code
//! of the same size, which recovers any four fragments and reads as many as a stripe has data
//! fragments.
#![tactic(auto)]

ghost use Rattle.std.specs.Prelude.{◌≡◌, ℕ, ◌+◌, ◌*◌, ◌/◌, ◌<◌, ◌≤◌, ◌↔◌, ◌^◌, IsTrue, SomeIff};
ghost use Rattle.std.specs.Prelude.{true, length, List, count_by};
ghost use Rattle.lrc_code.specs.Code.{fragment_count, is_lost, Open};
ghost use Rattle.lrc_code.specs.declared.recipes.Term.{Term};
ghost use Rattle.demo_survey.specs.Survey.{lost_sets, has_size, is_whole, is_counted, IsRead};
ghost use Rattle.demo_survey.specs.Survey.{ReadsFor};
ghost use Rattle.demo_survey.specs.Survey.{ReadsForAll, is_counted_by_any_four};

use anyhow::Result;
use lrc_code::{Code, LostSet, recipe_in};
use std::fmt;

/// How many sets of lost fragments a code has.
fn set_count(code: Code) -> u32
    ensures value { result ≡ 2 ^ fragment_count code }
    ensures few { result ≤ 65536 }
{
    match code {
        Code::Wide => 65_536,
        Code::Small => 1024,
    }
}

/// Whether each lost fragment can be rebuilt.
fn is_whole(code: Code, set: u16) -> bool
    ensures value { result ≡ is_whole code set }
    ensures unique { IsTrue result ↔ ((f : ℕ) → f < fragment_count code → Open code (is_lost set) f
        → ⊥) }
{
    LostSet::of_bits(set).excess_in(code) <= 2
}

/// Whether so many are lost.
fn has_size(size: u32, set: u32) -> bool
    ensures { result ≡ has_size size set }
{
    set.count_ones() == size
}

/// Whether so many are lost, and each can be rebuilt.
fn is_counted(code: Code, size: u32, set: u32) -> bool
    requires { set < 65536 }
    ensures value { result ≡ is_counted code size set }
    ensures recoverable { IsTrue result → (f : ℕ) → f < fragment_count code
        → Open code (is_lost set) f → ⊥ }
{
    has_size(size, set) && is_whole(code, set as u16)
}

/// The same for a code that rebuilds any four fragments from all others.
fn is_counted_by_any_four(size: u32, set: u32) -> bool
    ensures { result ≡ is_counted_by_any_four size set }
{
    has_size(size, set) && set.count_ones() <= 4
}

/// How many sets there are of so many lost fragments.
fn sets(code: Code, size: u32) -> u32
    ensures { result ≡ count_by (has_size size) (lost_sets code) }
{
    let mut count = 0;
    for set in 0..set_count(code) {
        count += u32::from(has_size(size, set));
    }
    count
}

/// In how many of them each lost fragment can be rebuilt.
fn whole_sets(code: Code, size: u32) -> u32
    ensures { result ≡ count_by (is_counted code size) (lost_sets code) }
{
    let mut count = 0;
    for set in 0..set_count(code) {
        count += u32::from(is_counted(code, size, set));
    }
    count
}

/// The same by a code that rebuilds any four fragments from all others.
fn whole_sets_by_any_four(code: Code, size: u32) -> u32
    ensures { result ≡ count_by (is_counted_by_any_four size) (lost_sets code) }
{
    let mut count = 0;
    for set in 0..set_count(code) {
        count += u32::from(is_counted_by_any_four(size, set));
    }
    count
}

/// The reads that rebuild lost fragments, each on its own: how many in all, and at most how many
/// for one.
#[derive(Clone, Copy, Drop)]
struct ReadCount {
    total: u32,
    most: u32,
}

/// How many fragments are read to rebuild a lost one.
fn read_for(code: Code, set: u16, f: u8) -> u32
    requires inside { f < fragment_count code }
    requires is_lost { is_lost set f ≡ true }
    requires recoverable { Open code (is_lost set) f → ⊥ }
    ensures read { (terms : List Term) × IsRead code (is_lost set) f terms
        × (result ≡ length terms) }
    ensures few { result ≤ 15 }
{
    let recipe = recipe_in(code, LostSet::of_bits(set), f).unwrap();
    recipe.len() as u32
}

/// The reads that rebuild each fragment of a set.
fn reads_for(code: Code, set: u16) -> ReadCount
    requires { (f : ℕ) → f < fragment_count code → Open code (is_lost set) f → ⊥ }
    ensures reads { ReadsFor code set (result.total, result.most) }
    ensures few { result.total ≤ 240 }
{
    let lost = LostSet::of_bits(set);
    let mut total = 0;
    let mut most = 0;
    for f in 0..code.fragments() {
        if !lost.left(f) {
            let read = read_for(code, set, f);
            total += read;
            most = most.max(read);
        }
    }
    ReadCount { total, most }
}

/// The reads that rebuild each fragment of each recoverable set of a size.
fn reads(code: Code, size: u32) -> ReadCount
    ensures { ReadsForAll code size result.total result.most }
{
    let mut total = 0;
    let mut most = 0;
    for set in 0..set_count(code) {
        if is_counted(code, size, set) {
            let reads = reads_for(code, set as u16);
            total += reads.total;
            most = most.max(reads.most);
        }
    }
    ReadCount { total, most }
}

/// A thousand times a ratio, or None if the whole is 0.
fn thousandths(part: u64, of: u64) -> Option<u64>
    requires { 1000 * part < 2 ^ 64 }
    ensures { SomeIff result (0 < of) (1000 * part / of) }
{
    (1000 * part).checked_div(of)
}

/// What is known of the sets of so many lost fragments of a code.
#[derive(Drop)]
struct Row {
    size: u32,
    sets: u32,
    whole: u32,
    whole_by_any_four: u32,
    reads: ReadCount,
    /// Of the sets those that can be rebuilt whole, in thousandths of a percent.
    share: Option<u64>,
    /// How many fragments are read to make one, in thousandths.
    mean: Option<u64>,
}

/// Counts all sets of so many lost fragments of a code.
fn row_for(code: Code, size: u32) -> Row
    requires { size ≤ 16 }
    ensures size { result.size ≡ size }
    ensures sets { result.sets ≡ count_by (has_size size) (lost_sets code) }
    ensures whole { result.whole ≡ count_by (is_counted code size) (lost_sets code) }
    ensures by_any_four { result.whole_by_any_four
        ≡ count_by (is_counted_by_any_four size) (lost_sets code) }
    ensures reads { ReadsForAll code size result.reads.total result.reads.most }
    ensures share { SomeIff result.share (0 < result.sets)
        (1000 * (100 * result.whole) / result.sets) }
    ensures mean { SomeIff result.mean (0 < size * result.whole)
        (1000 * result.reads.total / (size * result.whole)) }
{
    let sets = sets(code, size);
    let whole = whole_sets(code, size);
    let reads = reads(code, size);
    Row {
        size,
        sets,
        whole,
        whole_by_any_four: whole_sets_by_any_four(code, size),
        reads,
        share: thousandths(100 * u64::from(whole), u64::from(sets)),
        mean: thousandths(u64::from(reads.total), u64::from(size) * u64::from(whole)),
    }
}

/// A number of thousandths as a decimal, if there is one.
#[derive(Drop)]
struct Decimal(Option<u64>);

impl fmt::Display for Decimal {
    ghost use Rattle.std.specs.Prelude.{Some};
    ghost use Rattle.demo_survey.specs.Text.{thousandths_text};

    ghost output = { λ number. Some (thousandths_text number.0) };

    fn fmt<W: fmt::Write>(&self, f: &mut fmt::Formatter<W>) -> fmt::Result {
        match self.0 {
            Some(value) => write!(f, "{:>3}.{:03}", value / 1000, value % 1000),
            None => f.write_str("      -"),
        }
    }
}

impl fmt::Display for Row {
    ghost use Rattle.std.specs.Prelude.{Some};
    ghost use Rattle.demo_survey.specs.Text.{table_row};

    ghost output = { λ row. Some (table_row row) };

    fn fmt<W: fmt::Write>(&self, f: &mut fmt::Formatter<W>) -> fmt::Result {
        write!(
            f,
            "{:>4} {:>6} {:>6} {} {} {:>5} {:>9}",
            self.size,
            self.sets,
            self.whole,
            Decimal(self.share),
            Decimal(self.mean),
            self.reads.most,
            self.whole_by_any_four
        )
    }
}

fn main(rt: HostRuntime) -> Result<()> {
    for code in &[Code::Wide, Code::Small] {
        let k = code.data_fragments();
        println!(rt;
            "LRC({k},2,2), beside Reed-Solomon of {k} data fragments and 4 parities, \
                which reads {k} to make one"
        )?;
        println!(rt; "lost   sets  whole percent    mean  most  RS whole")?;
        for size in 1..=5 {
            println!(rt; "{}", row_for(*code, size))?;
        }
    }
    Ok(())
}
