//! What holds of every store that was opened. Nothing is run.

ghost use Rattle.recovery.specs.Laws.{OpeningGoesOn};

use section_store::going_laws::goes_on;
use section_store::laws::stands_for_one;

/// A store that was opened, and goes on from there, keeps the very trees that its file had, whenever it is stopped.
pub fn opening_goes_on()
    ensures { OpeningGoesOn }
{
    stands_for_one();
    goes_on();
}
