// Judging an accepted PDU: whether an archive may hold it, for which user, and as which part.
#![tactic(auto, unfolding(crate::specs::Judge::judged_is))]

ghost use Rattle.std.specs.Prelude.{◌≡◌};
ghost use Rattle.judging.specs.Judge.{judged_is};

use grammar::record::Identity;
use walk::Head;

// The affected user and the interrogation result of a PDU that an archive may hold; none for any other PDU.
pub fn judge(head: Head) -> Option<(Identity, u32)>
    ensures { result ≡ judged_is head }
{
    let holdable = head.kind == 12 && 1 <= head.result && head.result <= 2 && head.code == 1;
    holdable.then_some((head.user, head.result))
}
