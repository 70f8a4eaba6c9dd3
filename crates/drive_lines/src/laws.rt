//! Laws of the lines that the program writes.

ghost use Rattle.std.specs.Prelude.{◌≡◌, Some};
ghost use Rattle.drive_lines.specs.OrderReading.{FitsOrder, order_of};
ghost use Rattle.drive_lines.specs.Orders.{order_text};
ghost use Rattle.drive_lines.specs.declared.orders.Order.{Order as OrderOf};

/// A line of the program is read back as what it was spelled from, if each of its numbers has at
/// most 12 digits, each of its names and texts has the form of one, and it isn't the `begin` or the
/// `stop` of `night plan`, which names no task.
pub fn each_line_is_read_back()
    ensures { (o : OrderOf) → FitsOrder o → order_of (order_text o) ≡ Some o }
{}

/// So no two lines of the program are spelled alike, under the same conditions.
pub fn no_two_lines_are_spelled_alike()
    ensures { (a b : OrderOf) → FitsOrder a → FitsOrder b → order_text a ≡ order_text b → a ≡ b }
{}
