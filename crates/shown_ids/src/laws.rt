//! What holds of ids as they are shown.

ghost use Rattle.shown_ids.specs.Shown.{IdsLookDifferent};

/// Two different ids never look alike.
pub fn ids_look_different(one: &str, other: &str)
    ensures { IdsLookDifferent one.now other.now }
{}
