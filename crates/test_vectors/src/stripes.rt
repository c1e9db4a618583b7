//! Stripes, and what is rebuilt of them.
ghost use Rattle.std.specs.Prelude.{◌≡◌, ◌<◌, ◌↔◌, ℕ, true, false, All, IsTrue, length};
ghost use Rattle.lrc_code.specs.Code.{fragment_count};
ghost use Rattle.lrc_code.specs.Stripe.{is_absent, Reaches};

use anyhow::{Context, Result, bail, ensure};
use decode::decode_to;
use lrc_code::{Code, Left, LostSet, NoMemory, Rebuild, encode_in, is_open_in, rebuild};
use std::alloc::Global;
use std::fmt;

/// What was read of a stripe so far, and how much was compared.
#[derive(Drop)]
pub struct Comparison {
    code: Code,
    width: usize,
    fragments: Vec<Vec<u8>>,
    lost: LostSet,
    stripes: u32,
    rebuilt: u32,
    open: u32,
}

/// The bytes of a text of two hexadecimal digits each: none for `-`.
fn bytes_of(alloc: Global, text: &str) -> Result<Vec<u8>> {
    if text == "-" {
        return Ok(Vec::new(alloc));
    }
    Ok(hex::decode(alloc, text)?)
}

/// Whether each slice has `width` bytes.
fn are_long(slices: &[&[u8]], width: usize) -> bool
    ensures { IsTrue result ↔ All (λ s. length s.now ≡ width) slices.now }
{
    slices.iter().all(|slice| slice.len() == width)
}

/// Whether `decode_to` writes these bytes of a lost fragment, at two targets, so that it is not
/// rebuilt alone. It writes none if the fragment is unrecoverable.
fn is_decoded(
    alloc: Global,
    left: &Left,
    f: u8,
    width: usize,
    wanted: &[u8],
) -> Result<bool, NoMemory>
    requires inside { f < fragment_count left.now.code }
    requires absent { is_absent left.now.fragments f ≡ true }
    requires reach { (i : ℕ) → i < fragment_count left.now.code
        → is_absent left.now.fragments i ≡ false → Reaches left.now.fragments width i }
{
    let mut one = vec![in alloc; 0; width]?;
    let mut two = vec![in alloc; 0; width]?;
    let chosen = [Some(f), Some(f), None, None];
    let did = decode_to(left, chosen, 0, width, &mut one, &mut two, &mut [], &mut []);
    Ok(did && one.as_slice() == wanted && two.as_slice() == wanted)
}

/// Compares the bytes of a rebuilt fragment, and decodes it too.
fn compare_rebuilt(
    alloc: Global,
    left: &Left,
    f: u8,
    width: usize,
    rebuilt: &[u8],
    bytes: &str,
) -> Result<()>
    requires inside { f < fragment_count left.now.code }
    requires absent { is_absent left.now.fragments f ≡ true }
    requires reach { (i : ℕ) → i < fragment_count left.now.code
        → is_absent left.now.fragments i ≡ false → Reaches left.now.fragments width i }
{
    let wanted = bytes_of(alloc, bytes)?;
    ensure!(rebuilt == wanted.as_slice(), "other bytes");
    ensure!(
        is_decoded(alloc, left, f, width, wanted.as_slice())?,
        "other bytes by decoding"
    );
    Ok(())
}

impl Comparison {
    /// Nothing was read yet.
    pub fn new(alloc: Global, code: Code) -> Comparison {
        Comparison {
            code,
            width: 0,
            fragments: Vec::new(alloc),
            lost: LostSet::empty(),
            stripes: 0,
            rebuilt: 0,
            open: 0,
        }
    }

    /// Reads a line, and compares it with what the code gives.
    pub fn take_line(&mut self, alloc: Global, line: &str) -> Result<()> {
        let mut words = line.split(' ');
        let kind = words.next().unwrap_or("");
        let first = words.next().unwrap_or("");
        let second = words.next().unwrap_or("");
        if kind == "stripe" {
            let width = words.next().unwrap_or("");
            self.width = width.parse::<usize>().context("no width")?;
            self.fragments = Vec::new(alloc);
        } else if kind == "data" || kind == "parity" {
            self.add_fragment(alloc, first, second)?;
        } else if kind == "lost" {
            self.lost = lost_of(first)?;
        } else if kind == "fragment" {
            self.compare_fragment(alloc, first, second)?;
        } else {
            bail!("no such line");
        }
        Ok(())
    }

    /// Adds the next fragment of the stripe, and compares the parities after the last one.
    fn add_fragment(&mut self, alloc: Global, number: &str, bytes: &str) -> Result<()> {
        let number = number.parse::<usize>().context("no number")?;
        ensure!(number == self.fragments.len(), "not the next fragment");
        self.fragments.push(bytes_of(alloc, bytes)?)?;
        if self.fragments.len() == usize::from(self.code.fragments()) {
            ensure!(self.is_encoded(alloc)?, "other parities");
            self.stripes = self.stripes.saturating_add(1);
        }
        Ok(())
    }

    /// Whether the code gives the stripe's parities for its data.
    fn is_encoded(&self, alloc: Global) -> Result<bool, NoMemory> {
        let mut data = Vec::<&[u8]>::new(alloc);
        let count = usize::from(self.code.data_fragments());
        for fragment in self.fragments.iter().take(count) {
            data.push(fragment.as_slice())?;
        }
        if data.len() != count || !are_long(data.as_slice(), self.width) {
            return Ok(false);
        }
        let parities = encode_in(alloc, self.code, data.as_slice(), self.width)?;
        let given = self.fragments.iter().skip(count);
        Ok(
            parities
                .iter()
                .zip(given)
                .all(|(a, b)| a.as_slice() == b.as_slice()),
        )
    }

    /// Compares a lost fragment with what is rebuilt and decoded from the remaining ones.
    fn compare_fragment(&mut self, alloc: Global, number: &str, bytes: &str) -> Result<()> {
        let f = number.parse::<u8>().context("no number")?;
        let left = self.left();
        ensure!(f < left.code.fragments(), "no fragment");
        let slot = left.fragments[usize::from(f)];
        ensure!(
            slot.is_none() && left.reaches(self.width),
            "present, or too short"
        );
        match rebuild(alloc, &left, usize::from(f), 0, self.width) {
            Ok(rebuilt) => {
                ensure!(!is_open_in(left.code, self.lost, f), "expected to be open");
                compare_rebuilt(alloc, &left, f, self.width, rebuilt.as_slice(), bytes)?;
                self.rebuilt = self.rebuilt.saturating_add(1);
            }
            Err(Rebuild::Open) => {
                ensure!(
                    bytes == "open" && is_open_in(left.code, self.lost, f),
                    "not open"
                );
                ensure!(
                    !is_decoded(alloc, &left, f, self.width, &[])?,
                    "decoded although it is open"
                );
                self.open = self.open.saturating_add(1);
            }
            Err(Rebuild::NoMemory) => bail!("out of memory"),
        }
        Ok(())
    }

    /// The remaining fragments of the stripe.
    fn left(&self) -> Left<'_> {
        let mut fragments = [None; 16];
        for (f, bytes) in self.fragments.iter().enumerate().take(16) {
            if self.lost.left(f as u8) {
                fragments[f] = Some(bytes.as_slice());
            }
        }
        Left {
            code: self.code,
            fragments,
        }
    }
}

impl fmt::Display for Comparison {
    ghost use Rattle.std.specs.Prelude.{Some};
    ghost use Rattle.test_vectors.specs.Text.{comparison_text};

    ghost output = { λ comparison. Some (comparison_text comparison) };

    fn fmt<W: fmt::Write>(&self, f: &mut fmt::Formatter<W>) -> fmt::Result {
        let stripes = self.stripes;
        let rebuilt = self.rebuilt;
        let open = self.open;
        write!(
            f,
            "{stripes} stripes, {rebuilt} fragments rebuilt, {open} open"
        )
    }
}

/// The set of a hexadecimal mask.
fn lost_of(mask: &str) -> Result<LostSet> {
    let bits = u16::from_str_radix(mask, 16).context("no mask")?;
    let mut lost = LostSet::empty();
    for f in 0..16u8 {
        if bits >> f & 1 == 1 {
            lost = lost.with(f);
        }
    }
    Ok(lost)
}
