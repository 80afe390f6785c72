// The serial law of the transaction manager, for every lawful level, and a small level to try it on.
#![tactic(auto)]

ghost use Rattle.theory.specs.Theory.{Theory, Lawful};
ghost use Rattle.theory.specs.Machine.{Limits, DarkIsAnswered};
ghost use Rattle.theory.specs.Serial.{WorkedIsSerial, EveryListIsWorked, RecoveryIsGranted};
ghost use Rattle.theory.specs.Example.{CutCommitIsCovered, CutAgainIsCovered};
ghost use Rattle.theory.specs.Counter.{counter_theory, counter_lawful, counter_limits};

// A level by its theory alone.
pub trait Theoretical {
    type Op;

    type Answer;

    ghost theory: { Theory Self.Op Self.Answer };

    ghost laws: { Lawful theory };

    ghost limits: { Limits Self.Op theory.State };
}

// Every history of the level's manager is serial, and every list of calls has one.
pub fn serial_stands<L: Theoretical>()
    ensures serial { WorkedIsSerial L.theory L.limits }
    ensures worked { EveryListIsWorked L.theory L.limits }
{}

// Recovery with power is granted, and only a dark manager answers that it is dark.
pub fn recovery_stands<L: Theoretical>()
    ensures granted { RecoveryIsGranted L.theory L.limits }
    ensures dark { DarkIsAnswered L.theory L.limits }
{}

// No Option of an amount: None would not say that the counter is read.
#[derive(Clone, Copy, PartialEq, Eq, Debug)]
pub enum CounterOp {
    Add(u32),
    Read,
}

// One counter modulo 2^32.
#[derive(Clone, Copy, PartialEq, Eq, Debug)]
pub struct Counter {
    pub value: u32,
}

impl Theoretical for Counter {
    type Op = CounterOp;

    type Answer = u32;

    ghost theory = { counter_theory };

    ghost laws = { counter_lawful };

    ghost limits = { counter_limits };
}

pub fn counter_stands()
    ensures { WorkedIsSerial counter_theory counter_limits }
{
    serial_stands::<Counter>();
}

pub fn examples_stand()
    ensures { (CutCommitIsCovered) × (CutAgainIsCovered) }
{}
