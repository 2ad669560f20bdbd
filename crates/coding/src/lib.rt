//! The laws of the bank format, each asked for by a small function.
#![tactic(auto)]

ghost use Rattle.coding.specs.Numbers.{GroupsOnce, NoneExact, NumbersExact};
ghost use Rattle.coding.specs.Reading.{AcceptedExactly, BanksOnce, JudgedAsOffered, RefusedExactly, WrittenReads};
ghost use Rattle.coding.specs.Sizes.{BankLength};

// What stands for a number stands for no other, and reading finds exactly that number.
pub fn numbers_stand()
    ensures { GroupsOnce × NumbersExact × NoneExact }
{}

// What was written is read again, no two relations have one bank, and a bank is no longer than its largest rows make it.
pub fn writing_stands()
    ensures { WrittenReads × BanksOnce × BankLength }
{}

// Reading accepts exactly the banks of relations that meet the sort and fit the room, and refuses exactly with the fault
// that is due. Rows of the columns' kinds are judged as they are when they are offered.
pub fn reading_stands()
    ensures { AcceptedExactly × RefusedExactly × JudgedAsOffered }
{}
