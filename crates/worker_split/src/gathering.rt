//! The desks of a round's workers: handed out before the work, and joined after it with what they
//! found.
ghost use Rattle.std.specs.Prelude.{◌≡◌, ◌+◌, ◌<◌, ℕ, All, List, length};
ghost use Rattle.squares.specs.declared.sq.Sq.{Sq};
ghost use Rattle.squares.specs.Book.{Book, IsBook, Keeps};
ghost use Rattle.node_table.specs.DesksAtWork.{book_here};
ghost use Rattle.worker_split.specs.Rounds.{AreMembers, AreSettled, CanBeGathered, IsIdle, IsMember, PlacesFit, StaysMember};
ghost use Rattle.worker_split.specs.Work.{Continues, Works};

use crate::members::{Answer, Member};
use hashlife_step::Tally;
use node_table::At;
use plane::Refusal;
use squares::Sq;

/// Gives each worker a desk that knows what this one knows.
pub(crate) fn hand_out<'t>(at: &mut At<'t>, members: &mut [Member<'t>])
    ensures at { book_here at.new ≡ book_here at.old }
    ensures len { length members.new ≡ length members.old }
    ensures members { (jobs : List Sq) → All (IsIdle (length jobs)) members.old
        → All (IsMember (book_here at.old) jobs) members.new }
{
    for k in 0..members.len() {
        members[k].at = Some(at.split_off());
    }
}

// Puts answers at the places that they name.
fn place_all(answers: &[Answer], places: &mut [Option<Result<Sq, Refusal>>])
    requires { All (λ (a : Answer). a.place < length places.old) answers.now }
    ensures len { length places.new ≡ length places.old }
    ensures places { (jobs : List Sq) (book : Book) → AreSettled jobs book answers.now
        → PlacesFit jobs book places.old → PlacesFit jobs book places.new }
{
    for k in 0..answers.len() {
        let answer = answers[k];
        places[answer.place] = Some(answer.future);
    }
}

// Joins a worker's desk, adds what it counted, and puts its answers at their places.
fn gather_one(
    at: &mut At<'_>,
    member: &mut Member<'_>,
    places: &mut [Option<Result<Sq, Refusal>>],
    tally: &mut Tally,
)
    requires { CanBeGathered (book_here at.old) (length places.old) member.old }
    ensures keeps { Keeps (book_here at.old) (book_here at.new) }
    ensures len { length places.new ≡ length places.old }
    ensures member { StaysMember member.old member.new }
    ensures places { (base : Book) (jobs : List Sq) → IsMember base jobs member.old
        → PlacesFit jobs (book_here at.old) places.old
        → PlacesFit jobs (book_here at.new) places.new }
    // As many desks as were joined before, and one more.
    ensures works { (base : Book) (jobs : List Sq) (joined before : ℕ) → IsBook base
        → IsMember base jobs member.old
        → Works joined base (book_here at.old) before tally.old.expansions
        → Works (joined + 1) base (book_here at.new) before tally.new.expansions }
{
    let Some(theirs) = member.at.take() else {
        return;
    };
    at.join(theirs);
    tally.expansions = tally
        .expansions
        .saturating_add(member.solver.tally.expansions);
    place_all(member.solver.answers.as_slice(), places);
}

/// Joins all workers' desks, adds what they counted, and puts their answers at their places.
pub(crate) fn gather(
    at: &mut At<'_>,
    members: &mut [Member<'_>],
    places: &mut [Option<Result<Sq, Refusal>>],
    tally: &mut Tally,
)
    requires { AreMembers (book_here at.old) (length places.old) members.old }
    ensures len { length places.new ≡ length places.old }
    ensures places { (jobs : List Sq) → All (IsMember (book_here at.old) jobs) members.old
        → PlacesFit jobs (book_here at.old) places.old
        → PlacesFit jobs (book_here at.new) places.new }
    ensures continues { Continues (length members.old) at.old at.new tally.old tally.new }
{
    for k in 0..members.len() {
        gather_one(at, &mut members[k], places, tally);
    }
}
