//! Walks: where each part of a value lies.
ghost use Rattle.std.specs.Prelude.{◌≡◌, length, min};
ghost use Rattle.jilgomt.specs.Walks.{IsWalkAnswer, walk_answer};
ghost use Rattle.oer_walk.specs.Parts.{ArePlaced};
ghost use Rattle.oer_walk.specs.Walks.{overlay, walk_of};

use oer_calls::answer::Answer;
use oer_walk::{Node, Walked, walk};

/// The answer of a walk with room for so many nodes.
fn answer_of_walk(room: usize, walked: Walked) -> Answer
    ensures { result ≡ walk_answer room walked }
{
    match walked.refusal {
        Some(kind) => Answer::stopped(kind, walked.consumed, walked.nodes),
        None if room < walked.nodes => Answer::no_room(walked.consumed, walked.nodes),
        None => Answer::done(walked.consumed, walked.nodes),
    }
}

/// Where each part of the value at the front of the input lies, by a table of types: as many nodes as there is room for.
/// `written` counts all of them. If the walk stopped, `consumed` is where the part begins that it stopped in.
#[unsafe(no_mangle)]
pub extern "C" fn jilgomt_walk(
    table: &[u32],
    type_number: u32,
    levels: u32,
    input: &[u8],
    nodes: &mut [Node],
    answer: &mut Answer,
) -> u32
    ensures status { result ≡ answer.new.status }
    ensures answered { IsWalkAnswer (length nodes.old) (length input.now) (walk_of table.now type_number levels input.now) answer.new }
    ensures nodes { nodes.new ≡ overlay nodes.old 0 (walk_of table.now type_number levels input.now).nodes }
    ensures placed { ArePlaced (length input.now) (min answer.new.written (length nodes.new)) nodes.new }
{
    let room = nodes.len();
    *answer = answer_of_walk(room, walk(table, type_number, levels, input, nodes));
    answer.status
}
