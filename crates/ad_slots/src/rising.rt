//! Lists of numbers that rise strictly.
ghost use Rattle.std.specs.Prelude.{◌≡◌, ◌<◌, ◌≤◌, ◌+◌, vec_len, vec_capacity};
ghost use Rattle.std.specs.Ordering.{nat_cmp};
ghost use Rattle.std.specs.List.Sorted.{IsStrictlySortedBy};
ghost use Rattle.ad_slots.specs.Rising.{IsWith, IsWithout};

/// Puts the number into the list, which has room for one more.
pub fn put_into(list: &mut Vec<u32>, n: u32)
    requires rising { IsStrictlySortedBy nat_cmp list.old.items }
    requires room { vec_len list.old < vec_capacity list.old }
    ensures items { IsWith n list.old.items list.new.items }
    ensures len { vec_len list.new ≤ vec_len list.old + 1 }
    ensures capacity { vec_capacity list.new ≡ vec_capacity list.old }
{
    match list.binary_search(&n) {
        Ok(_) => {}
        Err(at) => {
            let _put = list.insert(at, n);
        }
    }
}

/// Takes the number out of the list. It takes no memory.
pub fn drop_from(list: &mut Vec<u32>, n: u32)
    requires rising { IsStrictlySortedBy nat_cmp list.old.items }
    ensures items { IsWithout n list.old.items list.new.items }
    ensures capacity { vec_capacity list.new ≡ vec_capacity list.old }
{
    match list.binary_search(&n) {
        Ok(at) => {
            list.remove(at);
        }
        Err(_) => {}
    }
}
