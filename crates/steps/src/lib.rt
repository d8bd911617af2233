// Processes and their named steps: what they are. Of records this crate knows
// only their numbers.
#![tactic(auto)]

ghost use Rattle.std.specs.Prelude.{◌≡◌, ◌<◌};
ghost use Rattle.steps.specs.Machine.{is_idle};
ghost use Rattle.steps.specs.Process.{idle, processes_allowed, operations_allowed};
ghost use Rattle.steps.specs.Clauses.Operations.{entered as entered_of, rested as rested_of};

// What a process is inside of: a put of a value, or a take. No Option: a take is an operation too, and the rules name
// both (specs/Rules).
#[derive(Clone, Copy)]
pub enum Operation {
    Put(u32),
    Take,
}

// Which refresh of a node it is: an operation does two at most.
#[derive(Clone, Copy)]
pub enum Refresh {
    First,
    Second,
}

// Where an operation is on its way from its leaf to the root: the node, the head h that was read there, and which
// refresh of the node it is.
#[derive(Clone, Copy)]
pub struct Visit {
    pub node: u32,
    pub head: u32,
    pub refresh: Refresh,
}

// What follows an advance: the right half of a refresh's helping (R4), its ends (C1), the second refresh of the node,
// or the way up: the parent's refresh, or Q after the root.
#[derive(Clone, Copy)]
pub enum After {
    Right,
    Ends,
    Again,
    Up,
}

// What C3N makes for C4 to write: the block's ends, totals and size. Its super is 0. What C3N has in registers stays
// where it is.
#[derive(Clone, Copy)]
pub struct Built {
    pub left: u32,
    pub right: u32,
    pub puts: u32,
    pub takes: u32,
    pub size: u32,
}

// The named steps, each with its own registers. An advance (node, place) keeps the visit that it is part of; `above` is
// the head of the parent. `child` is the head of a child, `left` and `right` are the ends; `puts` and `takes` are the
// totals of the left child's block, then the sums of both children's. A field of one byte stands first, beside the tag,
// so that no step reads a word where another step wrote a byte, which is slow; a register stays where it is from step
// to step, so that a step writes only what it adds.
#[derive(Clone, Copy)]
pub enum Step {
    A,
    V1 {
        after: After,
        visit: Visit,
        node: u32,
        place: u32,
    },
    V2 {
        after: After,
        visit: Visit,
        node: u32,
        place: u32,
        above: u32,
    },
    V3 {
        after: After,
        visit: Visit,
        node: u32,
        place: u32,
    },
    R1 {
        refresh: Refresh,
        node: u32,
    },
    R2 {
        visit: Visit,
    },
    R3 {
        visit: Visit,
        child: u32,
    },
    R4 {
        visit: Visit,
    },
    R5 {
        visit: Visit,
        child: u32,
    },
    C1 {
        visit: Visit,
    },
    C2 {
        visit: Visit,
        left: u32,
    },
    C3L {
        visit: Visit,
        left: u32,
        right: u32,
    },
    C3R {
        visit: Visit,
        left: u32,
        right: u32,
        puts: u32,
        takes: u32,
    },
    C3N {
        visit: Visit,
        left: u32,
        right: u32,
        puts: u32,
        takes: u32,
    },
    C4 {
        visit: Visit,
        built: Built,
    },
    Q,
}

// A process is idle, or inside an operation at a named step. No Option: the machine's definitions say Idle and Busy
// (specs/Machine).
#[derive(Clone, Copy)]
pub enum Status {
    Idle,
    Busy(Operation, Step),
}

// A process, the operations that it has begun, and the own steps and the helps of the one that it is inside of. With
// `begun` of eight bytes it takes 64, so that its place among the processes is found by a shift.
#[derive(Clone, Copy)]
pub struct Process {
    pub status: Status,
    pub begun: u64,
    pub steps: u32,
    pub helps: u32,
}

impl Process {
    // The limits: at most so many processes, and at most so many operations of one.
    pub const MOST_PROCESSES: u32 = 8;

    pub const MOST_OPERATIONS: u32 = 500;

    // At the start each process is idle, with no operations begun.
    pub fn start() -> Self
        ensures { result ≡ idle }
    {
        Process {
            status: Status::Idle,
            begun: 0,
            steps: 0,
            helps: 0,
        }
    }

    pub fn is_idle(self) -> bool
        ensures { result ≡ is_idle self.status }
    {
        match self.status {
            Status::Idle => true,
            Status::Busy(_, _) => false,
        }
    }

    // The serial of the operation that it is inside of, or was inside of last.
    pub fn serial(self) -> u32
        requires { self.begun < 65536 }
        ensures { result ≡ self.begun }
    {
        self.begun as u32
    }

    // The process after a begin: it is inside of operation o and comes to A.
    pub fn entered(self, o: Operation) -> Self
        requires { self.begun < 65536 }
        ensures { result ≡ entered_of self o }
    {
        Process {
            status: Status::Busy(o, Step::A),
            begun: self.begun + 1,
            steps: 0,
            helps: 0,
        }
    }

    // The process after the last step of its operation.
    pub fn rested(self) -> Self
        requires { self.steps < 65536 }
        ensures { result ≡ rested_of self }
    {
        Process {
            status: Status::Idle,
            begun: self.begun,
            steps: self.steps + 1,
            helps: self.helps,
        }
    }

    // Whether there may be p processes: 2, 4 or 8.
    pub fn processes_allowed(p: u32) -> bool
        ensures { result ≡ processes_allowed p }
    {
        if p == 2 {
            return true;
        }
        if p == 4 {
            return true;
        }
        p == Process::MOST_PROCESSES
    }

    // Whether a process may have at most l operations: 1 to 500.
    pub fn operations_allowed(l: u32) -> bool
        ensures { result ≡ operations_allowed l }
    {
        if l == 0 {
            return false;
        }
        l <= Process::MOST_OPERATIONS
    }
}
