//! What a sealed blob has: fragments and losses.
ghost use Rattle.std.specs.Prelude.{◌≡◌, ◌<◌, ◌≤◌, ◌&&◌, ℕ, false, nat_lt};
ghost use Rattle.std.specs.Option.{option_map};
ghost use Rattle.lrc_code.specs.Code.{fragment_count, is_lost};
ghost use Rattle.sealed.specs.Layout.{stripe_count};
ghost use Rattle.sealed.specs.Stripes.{fragment_at};
ghost use Rattle.sealed.specs.Sealed.{absent_in};

use crate::Sealed;
use lrc_code::{Code, LostSet};

impl Sealed {
    /// The same blob with another version.
    pub fn with_version(mut self, version: u64) -> Sealed
        ensures { result ≡ record self { version = version } }
    {
        self.version = version;
        self
    }

    /// The bytes of the fragment `f` of a stripe, or `None` if it is lost.
    pub fn fragment(&self, stripe: u64, f: u8) -> Option<&[u8]>
        requires stripe_below { stripe < stripe_count self.now.code self.now.width self.now.len }
        requires f_below { f < 16 }
        ensures { option_map (λ x. x.now) result ≡ fragment_at self.now.stripes stripe f }
    {
        self.stripes.fragment(stripe as usize, usize::from(f))
    }

    /// The fragments of a stripe that are lost. The set has only fragments of the code.
    pub fn lost(&self, stripe: u64) -> LostSet
        requires { stripe < stripe_count self.now.code self.now.width self.now.len }
        ensures absent { (f : ℕ) → f < fragment_count self.now.code
            → is_lost result f ≡ absent_in self.now stripe f }
        ensures inside { (f : ℕ) → fragment_count self.now.code ≤ f → is_lost result f ≡ false }
    {
        of_code(self.code, self.stripes.lost(stripe as usize))
    }
}

/// The members of a set of slots that are fragments of the code.
fn of_code(code: Code, slots: LostSet) -> LostSet
    requires { (i : ℕ) → 16 ≤ i → is_lost slots i ≡ false }
    ensures { (i : ℕ) → is_lost result i ≡ (nat_lt i (fragment_count code) && is_lost slots i) }
{
    match code {
        Code::Wide => slots,
        Code::Small => {
            let slots = slots.without(10).without(11).without(12);
            slots.without(13).without(14).without(15)
        }
    }
}
