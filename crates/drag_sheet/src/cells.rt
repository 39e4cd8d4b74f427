// A row of cells, or of their marks, made anew, each from itself and what stands at its place in a list. The list is read by place: of what is
// written through a zip nothing is known.
ghost use Rattle.std.specs.Prelude.{◌≡◌, length};
ghost use Rattle.drag_sheet.specs.Writing.{EachMade};

pub(crate) fn each_cell<C: Copy, T: Copy, F: Fn(C, T) -> C>(cells: &mut [C], list: &[T], make: F)
    requires calls { F.IsAlwaysCallable make }
    requires long { length list.now ≡ length cells.old }
    ensures { EachMade (λ x y r. F.post make x y r) list.now cells.old cells.new }
{
    for (i, cell) in cells.iter_mut().enumerate() {
        *cell = make(*cell, list[i]);
    }
}
