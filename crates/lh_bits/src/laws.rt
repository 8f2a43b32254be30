//! The laws of bits, values and parts, each as the contract of a function that does nothing.
ghost use Rattle.lh_bits.specs.Laws.{BitsAreCounted, BitsGiveValue, ValueGivesBits, PartOfPart, PartsAreWithin, BitsOfPart, BitsWithPart};

/// A value has as many bits as its type.
pub fn bits_are_counted()
    ensures { BitsAreCounted }
{}

/// The value of the bits of a value is the value: `from_bits` undoes `to_bits`.
pub fn bits_give_value()
    ensures { BitsGiveValue }
{}

/// The bits of the value of some bits are these bits: `to_bits` undoes `from_bits`.
pub fn value_gives_bits()
    ensures { ValueGivesBits }
{}

/// A part of a part is a part.
pub fn part_of_part()
    ensures { PartOfPart }
{}

/// A part of a data type is of a data type, and lies within the whole.
pub fn parts_are_within()
    ensures { PartsAreWithin }
{}

/// The bits of a part of a value are bits of the value.
pub fn bits_of_part()
    ensures { BitsOfPart }
{}

/// The bits of a value with a part replaced are those of the value, with those of the new part.
pub fn bits_with_part()
    ensures { BitsWithPart }
{}
