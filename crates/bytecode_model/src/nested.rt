//! Lists of lists, as what is told of each method of each class stands, gone through list by list.

ghost use Rattle.std.specs.Prelude.{◌≡◌, drop};
ghost use Rattle.bytecode_model.specs.Typed.{list_at};

use mon_base::List;

/// The items of the list of this index, or none where there is no such list.
pub fn list_at<T>(lists: &[List<T>], index: usize) -> &[T]
    ensures { result.now ≡ list_at lists.now index }
{
    let Some(list) = lists.get(index) else {
        return &[];
    };
    list.as_slice()
}

/// The lists after the first.
pub fn after_first<T>(lists: &[List<T>]) -> &[List<T>]
    ensures { result.now ≡ drop 1 lists.now }
{
    match lists {
        [] => lists,
        [_, others @ ..] => others,
    }
}
