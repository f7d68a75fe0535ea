//! The sizes of the items of globals.
ghost use Rattle.std.specs.Prelude.{◌≡◌, ◌<◌, ◌^◌};
ghost use Rattle.mr_typing.specs.Broken.{item_size, items_size};

use mr_ast::Item_;

fn item_size(item: &Item_) -> u32
    ensures { result ≡ item_size item.now }
{
    match item {
        Item_::Byte(_, repeat) | Item_::Uninit(repeat) => *repeat,
        Item_::Reloc(_, _) => 8,
    }
}

/// How many bytes the items of a global take together.
pub fn items_size(items: &[Item_]) -> u128
    ensures { result ≡ items_size items.now }
{
    let mut size = 0;
    for item in items {
        size += u128::from(item_size(item));
    }
    size
}
