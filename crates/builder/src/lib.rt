// The steps that put a plan into the memory: all cells free, a piece put behind the last, a block begun beside the plan, the end. A step
// that puts an item writes the first free cell and links the tail of the chain on to it. The memory's specs/Model.antt says on plain values
// what each step does, and the step here does exactly that.
#![tactic(auto)]

ghost use Rattle.std.specs.Prelude.{◌≡◌, ◌*◌, ◌<◌, set};
ghost use Rattle.pieces.specs.Numbered.{operator_number};
ghost use Rattle.memory.specs.Held.{held_numbers};
ghost use Rattle.memory.specs.Lent.{Aside, Lent};
ghost use Rattle.memory.specs.Memory.{start, close};
ghost use Rattle.memory.specs.Model.{Apart, BuildEnded, Buildable, Fresh, PieceReady, Stepped, model, next_free, with_block, with_cell, with_close, with_item, with_numbers, with_piece, with_place, with_token};
ghost use Rattle.memory.specs.Numbered.{kind_number};

use kinds::{Cell, Token};
use memory::{Held, HeldPlan, Kind, Port};
use pieces::Piece;
use plan::Operator;

// Begins the first free cell with its kind, and answers the free cell behind it.
fn begin_cell(held: &mut HeldPlan, kind: Kind) -> Cell
    requires { held.old.kept.free.0 < held.old.kept.outer.0 }
    ensures begun { Stepped held.old held.new (with_numbers (model held.old) (set (held_numbers held.old) (2 * start held.old.kept.free.0) (kind_number kind))) }
    ensures behind { result.0 ≡ next_free (model held.old) }
{
    let start = Port::start(held.kept.free);
    let next = held.kept_cell(start);
    held.set_number(2 * start.0 as usize, u32::from(kind));
    next
}

// Stores which token the first free cell is: its place and its length in the text.
fn set_place(held: &mut HeldPlan, token: Token)
    requires { held.old.kept.free.0 < held.old.kept.outer.0 }
    ensures { Stepped held.old held.new (with_place (model held.old) token.at.0 token.len) }
{
    let close = Port::close(held.kept.free);
    held.set_number(2 * close.0 as usize, token.at.0);
    held.set_number(2 * close.0 as usize + 1, token.len);
}

// Links the tail on to the first free cell, which comes into use.
fn append(held: &mut HeldPlan, opened: Cell, next: Cell)
    requires { Buildable held.old × (held.old.kept.free.0 < held.old.kept.outer.0) }
    ensures { Stepped held.old held.new (with_cell (model held.old) (held_numbers held.old) opened.0 next.0) }
{
    let last = held.tail;
    let tail = Port::start(held.kept.free);
    held.set_link(last, tail);
    held.tail = tail;
    held.opened = opened;
    held.kept.free = next;
}

// A memory whose cells are all free, in order, whatever the numbers were before.
pub fn fresh<'a>(numbers: &'a mut [u32], outer: Cell) -> HeldPlan<'a>
    requires { Lent outer.0 numbers.old }
    ensures all_free { Fresh result }
    ensures same_cells { result.kept.outer ≡ outer }
    ensures same_numbers { result.numbers.ghost_name ≡ numbers.entry.ghost_name }
    ensures aside { Aside outer.0 numbers.old result.numbers.now }
{
    let mut held = HeldPlan {
        numbers,
        kept: Held {
            outer,
            first: Port::close(outer),
            free: Cell(0),
        },
        tail: Port::start(outer),
        opened: outer,
    };
    for number in 0..outer.0 {
        held.keep_cell(Port::start(Cell(number)), Cell(number + 1));
    }
    held
}

// Puts an operator behind the last item.
fn put_operator(held: &mut HeldPlan, operator: Operator)
    requires { Buildable held.old × (held.old.kept.free.0 < held.old.kept.outer.0) }
    ensures { Stepped held.old held.new (with_item (model held.old) (operator_number operator)) }
{
    let opened = held.opened;
    let next = begin_cell(held, Kind::Operator(operator));
    append(held, opened, next);
}

// Puts a token, by its place in the text, behind the last item.
fn put_token(held: &mut HeldPlan, token: Token)
    requires { Buildable held.old × (held.old.kept.free.0 < held.old.kept.outer.0) }
    ensures { Stepped held.old held.new (with_token (model held.old) token.at.0 token.len) }
{
    let opened = held.opened;
    let next = begin_cell(held, Kind::Token);
    set_place(held, token);
    append(held, opened, next);
}

// Opens a block behind the last item: its close keeps the block that was open so far.
fn open_block(held: &mut HeldPlan)
    requires { Buildable held.old × (held.old.kept.free.0 < held.old.kept.outer.0) }
    ensures { Stepped held.old held.new (with_block (model held.old)) }
{
    let opened = held.opened;
    let block = held.kept.free;
    let next = begin_cell(held, Kind::Block);
    held.keep_cell(Port::close(block), opened);
    append(held, block, next);
}

// Closes the innermost open block: the one that its close kept is open again.
fn close_block(held: &mut HeldPlan)
    requires { Buildable held.old × (held.old.opened.0 < held.old.kept.outer.0) }
    ensures { Stepped held.old held.new (with_close (model held.old)) }
{
    let last = held.tail;
    let tail = Port::close(held.opened);
    let opened = held.kept_cell(tail);
    held.set_link(last, tail);
    held.tail = tail;
    held.opened = opened;
}

// Begins a block in the first free cell, beside the plan. No port links to it yet. What is put from then on is its inside.
pub fn begin_apart(held: &mut HeldPlan)
    requires { held.old.kept.free.0 < held.old.kept.outer.0 }
    ensures { Apart held.old held.new }
{
    let block = held.kept.free;
    let spare = begin_cell(held, Kind::Block);
    held.tail = Port::start(block);
    held.opened = block;
    held.kept.free = spare;
}

// Puts a piece behind the last one.
pub fn put_piece(held: &mut HeldPlan, piece: Piece)
    requires { PieceReady held.old piece }
    ensures { Stepped held.old held.new (with_piece (model held.old) piece) }
{
    match piece {
        Piece::Operator(operator) => put_operator(held, operator),
        Piece::Token(token) => put_token(held, token),
        Piece::Open => open_block(held),
        Piece::Close => close_block(held),
    }
}

// Ends the plan: the last port links to the end mark.
pub fn end_plan(held: &mut HeldPlan)
    requires { Buildable held.old }
    ensures { BuildEnded held.old held.new }
{
    let last = held.tail;
    let end = Port::close(held.kept.outer);
    held.set_link(last, end);
}
