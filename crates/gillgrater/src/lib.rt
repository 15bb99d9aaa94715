// The kernel for C: the library that `rt lib` makes here. include/gillgrater.h declares these functions; the two change together.
#![tactic(auto)]

ghost use Rattle.std.specs.Prelude.{◌≡◌};
ghost use Rattle.shape.specs.Shape.{max_rank, max_count, count_of};
ghost use Rattle.shape.specs.Place.{successor};
ghost use Rattle.meaning.specs.Item.{leading_item};
ghost use Rattle.meaning.specs.Reply.{reply};
ghost use Rattle.answer.specs.Answer.{lent, Replied};
ghost use Rattle.items.specs.Part.{item_part, part_in};
ghost use Rattle.items.specs.Sister.{item_answer};

use answer::{Answer, Operand};
use items::Part;
use shape::{Place, Shape};

// A call by its primitive's number.
#[unsafe(no_mangle)]
pub extern "C" fn gillgrater_call(
    primitive: i32,
    g: i32,
    k: i32,
    ls: Shape,
    l: &[i32],
    rs: Shape,
    r: &[i32],
    out: &mut [i32],
) -> Answer
    ensures { Replied result out.new (reply primitive g k (lent ls l.now) (lent rs r.now) out.old) }
{
    Answer::from(kernel::call(primitive, g, k, &lent(ls, l), &lent(rs, r), out))
}

// The leading item as a part of R's buffer, 0 and 0 for a refusal. A slice cannot be returned to C.
#[unsafe(no_mangle)]
pub extern "C" fn gillgrater_item(g: i32, i: i32, rs: Shape, r: &[i32]) -> Part
    ensures value { result ≡ item_part (lent rs r.now) g i }
    ensures elements { part_in result r.now ≡ (leading_item (lent rs r.now) g i).part }
{
    items::leading_part(g, i, &lent(rs, r))
}

// The sister call: the number, and the item's shape.
#[unsafe(no_mangle)]
pub extern "C" fn gillgrater_item_shape(g: i32, i: i32, rs: Shape, r: &[i32]) -> Answer
    ensures { result ≡ item_answer (leading_item (lent rs r.now) g i) }
{
    Answer::from(items::item_shape(g, i, &lent(rs, r)))
}

// An operand as C hands it over, in two parameters.
fn lent<'a>(shape: Shape, elements: &'a [i32]) -> Operand<'a>
    ensures { result ≡ lent shape elements.now }
{
    Operand { shape, elements }
}

// The next place row by row, or the end.
#[unsafe(no_mangle)]
pub extern "C" fn gillgrater_successor(p: Place, s: Shape) -> Place
    ensures { result ≡ successor p s }
{
    p.successor(s)
}

// How many elements a shape counts; one more than the largest count for a bad shape.
#[unsafe(no_mangle)]
pub extern "C" fn gillgrater_count(s: Shape) -> usize
    ensures { result ≡ count_of s }
{
    s.count()
}

#[unsafe(no_mangle)]
pub extern "C" fn gillgrater_max_rank() -> usize
    ensures { result ≡ max_rank }
{
    Shape::max_rank()
}

#[unsafe(no_mangle)]
pub extern "C" fn gillgrater_max_count() -> usize
    ensures { result ≡ max_count }
{
    Shape::max_count()
}
