ghost use Rattle.std.specs.Prelude.{◌≡◌};

use crate::row::Row;
use ken_order::{Order, Verdict};
use ken_rows::RowFault;

/// Answers a row of an order, which has what a node consumed, and its stamps.
pub(crate) fn answer(order: &mut Order, row: &mut Row) -> Result<(), RowFault>
    requires { order.old.nodes ≡ 8 }
    ensures { order.new.nodes ≡ 8 }
{
    match row.words.word()? {
        b"new" => *order = Order::new(8),
        b"stamp" => row.answer.number(order.stamp())?,
        b"stamp-after" if order.stamp() < u64::MAX => {
            let stamp = row.words.within(0, u64::MAX - 1)?;
            row.answer.number(order.stamp_after(stamp))?;
        }
        b"through" => {
            let from = row.sender()?;
            row.answer.number(order.through(from))?;
        }
        b"verdict" => {
            let verdict = order.verdict(row.sender()?, row.words.number()?);
            row.answer.word(match verdict {
                Verdict::Next => "next",
                Verdict::Old => "old",
                Verdict::Early => "early",
            })?;
        }
        b"consume" => {
            let from = row.sender()?;
            let next = order.through(from).checked_add(1).ok_or(RowFault::Usage)?;
            order.consume(from, next);
        }
        _ => return Err(RowFault::Usage),
    }
    Ok(())
}
