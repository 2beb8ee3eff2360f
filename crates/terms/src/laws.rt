//! Laws over the definitions alone.

ghost use Rattle.terms.specs.Numbers.{NumbersComeBack, FieldsComeBack};

/// Hiding a number in the fields and finding it there are inverse to each other. Each number below 2^48 is found in the fields that carry it,
/// and fields that carry a number are those of that number.
pub fn numbers_come_back()
    ensures numbers { NumbersComeBack }
    ensures fields { FieldsComeBack }
{}
