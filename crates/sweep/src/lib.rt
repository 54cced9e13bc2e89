// Reachability by one backward sweep: from the targets, over bonds, through free atoms, a round at a time.
#![tactic(auto)]

ghost use Rattle.std.specs.Prelude.{◌<◌};
ghost use Rattle.atomset.specs.Set.{has, linked_by};
ghost use Rattle.chordless.specs.Reach.{Symmetric};
ghost use Rattle.sweep.specs.Swept.{Reached, NearWord};

// The atoms bonded to an atom of word k of a set.
// What a call answers gets a name first: the borrow checker doesn't cover a call that assigns to a variable of arrays.
pub fn near_word(table: &[u64; 256], word: u64, k: usize) -> [u64; 2]
    requires { k < 2 }
    ensures { NearWord (linked_by table.now) word k result }
{
    let mut all = atomset::empty();
    let mut left = word;
    while left != 0 {
        let j = atomset::lowest_bit(left);
        let row = atomset::row(table, 64 * k + j + 1);
        let more = atomset::union(all, row);
        all = more;
        left &= left - 1;
    }
    all
}

// Of the atoms of `want`, those from which a target is reached through free atoms in at most `steps` steps. It ends
// once every one is decided. `left` are those not yet decided, `unseen` the free atoms that were in no round, `taken`
// the atoms of this round, a word at a time, and `front` those of the next round; a round is a step.
// Built into the fast loop: as a function of its own, whose sets pass through memory, it makes a listing of cage
// compounds slower (`docs/DECISIONS.md`, 51).
#[inline(always)]
pub fn reached(
    table: &[u64; 256],
    free: [u64; 2],
    targets: [u64; 2],
    want: [u64; 2],
    steps: usize,
) -> [u64; 2]
    requires { Symmetric (linked_by table.now) }
    ensures { Reached (linked_by table.now) (has free) (has targets) steps (has want) (has result) }
{
    let mut left = want;
    let mut unseen = free;
    let mut front = targets;
    'sweep: for _ in (0..steps).rev() {
        let taken = front;
        front = atomset::empty();
        for k in 0..2 {
            if taken[k] != 0 {
                let near = near_word(table, taken[k], k);
                let undecided = atomset::minus(left, near);
                left = undecided;
                if atomset::is_empty(left) {
                    break 'sweep;
                }
                let fresh = atomset::intersection(near, unseen);
                let not_fresh = atomset::minus(unseen, fresh);
                unseen = not_fresh;
                let more = atomset::union(front, fresh);
                front = more;
            }
        }
        if atomset::is_empty(front) {
            break 'sweep;
        }
    }
    atomset::minus(want, left)
}
