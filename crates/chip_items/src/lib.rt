// The items of a chip that is held as a value, tested one by one in the order of the file.
#![tactic(auto)]

ghost use Rattle.std.specs.Prelude.{◌≡◌, ◌≤◌};
ghost use Rattle.model.specs.Limits.{most_pins};
ghost use Rattle.chip_items.specs.Tests.{row_tested, net_tested, nets_tested, items_tested};

use chip_faults::Row;
use model::{Chip, Refusal};

// The items of a list, `count` of them from item q on, the first on the line given.
fn test_row(c: Chip, row: Row, q: usize, count: usize, line: usize) -> Result<(), Refusal>
    requires { (q ≤ most_pins) × (line ≤ 200) }
    ensures { result ≡ row_tested c row q line count }
{
    for i in 0..count {
        let no = chip_faults::row_fault(c, row, q + i);
        if no != 0 {
            return Err(Refusal { no, line: line + i });
        }
    }
    Ok(())
}

// Net j on the line given, with its pins from pin q on.
fn test_net(c: Chip, j: usize, q: usize, line: usize) -> Result<(), Refusal>
    requires { (q ≤ most_pins) × (line ≤ 199) }
    ensures { result ≡ net_tested c line q j }
{
    let nets = c.nets;
    let no = chip_faults::net_fault(nets, j);
    if no != 0 {
        return Err(Refusal { no, line });
    }
    let net = nets[j];
    test_row(c, Row::Pins, q, net.pins, line + 1)
}

// The nets with their pins and the end, from the line given on.
fn test_nets(c: Chip, first: usize) -> Result<(), Refusal>
    requires { first ≤ 18 }
    ensures { result ≡ nets_tested c first 0 0 c.t }
{
    let nets = c.nets;
    let mut q: usize = 0;
    for j in 0..c.t {
        test_net(c, j, q, first + j + q)?;
        q += nets[j].pins;
    }
    if chip_faults::bare_before(nets, c.t) {
        return Err(Refusal {
            no: 7,
            line: first + c.t + q,
        });
    }
    Ok(())
}

// The items of a chip one after the other, whatever the length of its text.
pub fn test_items(c: Chip) -> Result<(), Refusal>
    ensures { result ≡ items_tested c }
{
    let no = chip_faults::die_fault(c.die);
    if no != 0 {
        return Err(Refusal { no, line: 1 });
    }
    test_row(c, Row::Fixes, 0, c.k, 2)?;
    test_row(c, Row::Macs, 0, c.n, c.k + 2)?;
    test_nets(c, c.k + 2 + c.n)
}
