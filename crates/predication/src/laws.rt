ghost use Rattle.predication.specs.inside.Laws.{ConvertsFitting, ConvertsMeaning, ConvertsPaths};
ghost use Rattle.predication.specs.inside.Laws.{ConvertsRegular, ResolvesLabels, TakesAddressed};

/// On every path of a converted block no null token meets a guard, each operand, write and number
/// has at most one token, and exactly one exit is taken.
pub fn converted_blocks_are_tidy()
    ensures { ConvertsPaths }
{}

/// A converted block means the narrowed block in each layout whose addresses stand in it, and what
/// fires is what the narrowed block does.
pub fn converted_blocks_mean_the_same()
    ensures { ConvertsMeaning }
{}

/// A converted block fits, where its load/store numbers and its exits have room.
pub fn converted_blocks_fit()
    ensures { ConvertsFitting }
{}

/// A converted block is regular: each register is written once and read by one name, loads have
/// numbers of their own outside the mask, and nothing takes a token of a store or a branch.
pub fn converted_blocks_are_regular()
    ensures { ConvertsRegular }
{}

/// A hyper block that fits is taken in each layout: with addresses for labels it fits too, and has
/// the same room.
pub fn fitting_blocks_are_taken()
    ensures { TakesAddressed }
{}

/// A block that holds labels until the blocks are laid out becomes the block with addresses, once
/// each label in a constant is resolved to a half of its address.
pub fn resolved_labels_are_addresses()
    ensures { ResolvesLabels }
{}
