//! Which fragments are unrecoverable.
ghost use Rattle.std.specs.Prelude.{◌≡◌, ◌<◌, ◌↔◌, IsTrue};
ghost use Rattle.lrc_code.specs.Code.{fragment_count, first_group, second_group, is_lost, is_alone};
ghost use Rattle.lrc_code.specs.Code.{is_only_lost_of, Open};

use crate::{Code, LostSet};

/// Whether `f` is the only lost fragment of the first group.
pub(crate) fn is_only_lost_of_first(code: Code, lost: LostSet, f: u8) -> bool
    requires { f < 16 }
    ensures { result ≡ is_only_lost_of (is_lost lost) (first_group code) f }
{
    lost.has_only(code.first_bits(), f)
}

/// Whether `f` is the only lost fragment of the second group.
pub(crate) fn is_only_lost_of_second(code: Code, lost: LostSet, f: u8) -> bool
    requires { f < 16 }
    ensures { result ≡ is_only_lost_of (is_lost lost) (second_group code) f }
{
    lost.has_only(code.second_bits(), f)
}

/// Whether `f` is alone lost in its group, so that it is the sum of the others of the group: what
/// `rebuild_local` and `rebuild_local_in` require.
#[tactic(auto, unfolding(crate::specs::Code::is_alone))]
pub fn is_alone_in(code: Code, lost: LostSet, f: u8) -> bool
    requires { f < 16 }
    ensures { result ≡ is_alone code (is_lost lost) f }
{
    is_only_lost_of_first(code, lost, f) || is_only_lost_of_second(code, lost, f)
}

/// Whether the fragment `f` of a code is open, which means unrecoverable: two stripes agree on
/// every remaining fragment, and differ at `f`. A remaining fragment is never open.
pub fn is_open_in(code: Code, lost: LostSet, f: u8) -> bool
    requires { f < fragment_count code }
    ensures { IsTrue result ↔ Open code (is_lost lost) f }
{
    if lost.left(f) || is_alone_in(code, lost, f) {
        return false;
    }
    lost.excess_in(code) > 2
}

/// Whether the fragment `f` is open in LRC(12,2,2), as `is_open_in` defines it.
pub fn is_open(lost: LostSet, f: u8) -> bool
    requires { f < 16 }
    ensures { IsTrue result ↔ Open Code.Wide (is_lost lost) f }
{
    is_open_in(Code::Wide, lost, f)
}
