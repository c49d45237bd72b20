// The pages of a row get room for more items.
ghost use Rattle.std.specs.Prelude.{◌≡◌, ℕ, ◌+◌, ◌*◌, ◌/◌, ◌<◌, ◌≤◌, length, OnOk};
ghost use Rattle.paged_list.specs.Paged.{all_items, IsPaged, IsRoomFor};

use crate::pages::PAGE;
use std::alloc::{AllocError, Global};

// The first page begins with room for so many items.
const FIRST: usize = 4;

// How large the page that grows next is to be, in items, where there is room for so many in all: the
// first is to be twice as large as it was, and each behind it as large as a page can be.
pub(crate) fn next_size(fitting: usize) -> usize
    ensures more { fitting < PAGE * (fitting / PAGE) + result }
    ensures most { result ≤ PAGE }
{
    if fitting >= PAGE {
        return PAGE;
    }
    (fitting * 2).clamp(FIRST, PAGE)
}

// A page stands at this place from now on. Where none stood there it has no room yet.
pub(crate) fn begin_page<T>(
    alloc: Global,
    pages: &mut Vec<Vec<T>>,
    place: usize,
) -> Result<(), AllocError>
    requires { place ≤ length pages.old.items }
    ensures there { OnOk result (place < length pages.new.items) }
    ensures items { all_items pages.new.items ≡ all_items pages.old.items }
    ensures paged { (n : ℕ) → IsPaged pages.old.items n → IsPaged pages.new.items n }
    ensures room { (n : ℕ) → IsRoomFor pages.old.items n → IsRoomFor pages.new.items n }
{
    if place < pages.len() {
        return Ok(());
    }
    pages.reserve(1)?;
    pages.push_reserved(Vec::new(alloc));
    Ok(())
}

// The page at this place gets room for so many items.
pub(crate) fn enlarge_page<T>(
    pages: &mut Vec<Vec<T>>,
    place: usize,
    size: usize,
) -> Result<(), AllocError>
    requires there { place < length pages.old.items }
    requires most { size ≤ PAGE }
    ensures items { all_items pages.new.items ≡ all_items pages.old.items }
    ensures paged { (n : ℕ) → IsPaged pages.old.items n → IsPaged pages.new.items n }
    ensures room { (n : ℕ) → IsRoomFor pages.old.items n → IsRoomFor pages.new.items n }
    ensures more { OnOk result ((n : ℕ) → IsRoomFor pages.old.items n → PAGE * place ≤ n
        → n ≤ PAGE * place + size → IsRoomFor pages.new.items (PAGE * place + size)) }
{
    let page = &mut pages[place];
    page.reserve_exact(size.saturating_sub(page.len()))
}
