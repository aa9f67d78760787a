//! The orders in which the futures of several squares are asked for.
ghost use Rattle.std.specs.Prelude.{◌<◌};

// Eight orders of nine squares, each as the places of the squares.
const ORDERS_OF_NINE: [[u8; 9]; 8] = [
    [0, 1, 2, 3, 4, 5, 6, 7, 8],
    [8, 7, 6, 5, 4, 3, 2, 1, 0],
    [4, 1, 5, 7, 3, 0, 2, 6, 8],
    [2, 6, 3, 8, 0, 5, 7, 1, 4],
    [5, 0, 7, 2, 6, 3, 8, 4, 1],
    [3, 8, 1, 6, 2, 7, 4, 0, 5],
    [6, 2, 4, 0, 8, 1, 5, 3, 7],
    [7, 4, 0, 1, 5, 8, 3, 2, 6],
];

// Eight orders of four squares.
const ORDERS_OF_FOUR: [[u8; 4]; 8] = [
    [0, 1, 2, 3],
    [3, 2, 1, 0],
    [1, 3, 0, 2],
    [2, 0, 3, 1],
    [0, 2, 1, 3],
    [3, 1, 2, 0],
    [1, 0, 3, 2],
    [2, 3, 0, 1],
];

/// An order in which the futures of several squares are asked for. No result hangs on an order, so
/// nothing says that each square comes at some index.
#[derive(Clone, Copy, Debug, PartialEq, Eq)]
pub struct EvaluationOrder {
    // Which of the eight lists of places it goes by.
    list: u8,
    // How many places after that of the list a square stands.
    turn: u8,
    ghost listed: { list < 8 },
}

impl EvaluationOrder {
    /// The order of a worker: the first one has none, and 255 others have each their own. Workers
    /// share their work best where their orders begin at different squares.
    pub fn of_worker(worker: u8) -> Option<EvaluationOrder> {
        if worker == 0 {
            return None;
        }
        Some(EvaluationOrder {
            list: worker % 8,
            turn: worker / 8,
        })
    }

    /// Which of `count` squares comes at index k.
    pub(crate) fn index(self, k: usize, count: usize) -> usize
        requires { 0 < count }
        ensures { result < count }
    {
        let list = self.list as usize;
        let index = if count == 4 {
            ORDERS_OF_FOUR[list][k % 4]
        } else {
            ORDERS_OF_NINE[list][k % 9]
        };
        (index as usize + self.turn as usize) % count
    }
}
