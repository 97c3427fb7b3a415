// The rows, and their answers as the rulebook has them.
ghost use Rattle.std.specs.Prelude.{◌≡◌, length};
ghost use Rattle.tree.specs.Shape.{height};
ghost use Rattle.tree.specs.Blocks.{ListsLargest};
ghost use Rattle.examples.specs.Rows.{question, question_blocks, defined, rulebook};

use kind::figures::Figures;

// What is asked of which stations. Codes are up, down; all stations are judged unless it is said.
#[derive(Clone, Copy, PartialEq, Eq, Debug)]
pub enum Row {
    // counts, each station 1, 1: one with k 2 and with k 1, four with k 2, five with k 3
    OneForTwo,
    OneForOne,
    FourForTwo,
    RingOfFour,
    FiveForThree,
    RingOfFive,
    // places 2 to 4 of these five
    MiddleOfFive,
    // residues by 7, k 2, four of 1, 1
    ResiduesOfFour,
    ResiduesRing,
    // costs, k 2, up 0 and down 2, 9, 4, 1
    CheapestBreak,
    CheapestRingBreak,
    // the same with station 1 up
    BreakWithoutFirst,
    // counts, k 1, two of 1, 1000000000
    FullCount,
    // runs: down, down, up, down
    Runs,
    RunsRing,
}

// Two figures, and how many joins they take.
#[derive(Clone, Copy, PartialEq, Eq, Debug)]
pub struct Answer {
    pub figures: Figures,
    pub joins: usize,
}

impl Row {
    // The row's answer: that which the definitions give, and that which the rulebook has. Its blocks are the largest whole ones.
    pub fn answer(self) -> Answer
        ensures by_definition { result ≡ defined self }
        ensures by_rulebook { result ≡ rulebook self }
        ensures blocks { let q = question self in ListsLargest (height (length q.stations)) q.first q.last (question_blocks q) }
    {
        self.numbers()
    }

    #[tactic(auto, using(crate::proofs::Answered::defined_is_rulebook))]
    fn numbers(self) -> Answer
        ensures by_definition { result ≡ defined self }
        ensures by_rulebook { result ≡ rulebook self }
    {
        let (first, second, joins) = match self {
            Row::OneForTwo => (0, 2, 0),
            Row::OneForOne => (1, 1, 0),
            Row::FourForTwo => (8, 8, 0),
            Row::RingOfFour => (9, 7, 0),
            Row::FiveForThree => (8, 24, 1),
            Row::RingOfFive => (11, 21, 1),
            Row::MiddleOfFive => (1, 7, 1),
            Row::ResiduesOfFour => (1, 1, 0),
            Row::ResiduesRing => (2, 0, 0),
            Row::CheapestBreak => (5, 0, 0),
            Row::CheapestRingBreak => (3, 0, 0),
            Row::BreakWithoutFirst => (5, 0, 0),
            Row::FullCount => (1_000_000_000, 1, 0),
            Row::Runs => (2, 2, 0),
            Row::RunsRing => (3, 3, 0),
        };
        Answer {
            figures: Figures { first, second },
            joins,
        }
    }
}
