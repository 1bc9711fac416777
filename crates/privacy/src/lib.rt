// Two parts of captures listed for the crew: the same bytes where the blocks differ by codewords. Document 02, request 7.
#![tactic(auto)]

ghost use Rattle.privacy.specs.Same.{SameLines, SameRecords};

use pieces::Listed;
use readers::Reader;
use refusals::Both;
use tables::Table;

// Lists two parts for the crew under one table, `last` where the inputs end with them.
pub fn list_both(
    table: Table,
    part1: &[u8],
    part2: &[u8],
    last: bool,
    out1: &mut [u8],
    out2: &mut [u8],
    area1: &mut [i32],
    area2: &mut [i32],
) -> Both<Listed>
    ensures { SameRecords table part1.now part2.now → SameLines result.first result.second out1.new out2.new }
{
    let first = listing::list_part(Reader::Crew, table, part1, last, out1, area1);
    let second = listing::list_part(Reader::Crew, table, part2, last, out2, area2);
    Both { first, second }
}
