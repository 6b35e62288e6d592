// Lists that have room for what is added.
ghost use Rattle.std.specs.Prelude.{◌≡◌, ◌<◌, ◌≤◌, [], ◌∷◌, ◌++◌, length, replicate, vec_capacity};

/// Adds a value to a list that has room for it.
pub fn add<T: Copy>(list: &mut Vec<T>, value: T)
    requires { length list.old.items < vec_capacity list.old }
    ensures items { list.new.items ≡ list.old.items ++ value ∷ [] }
    ensures room { vec_capacity list.old ≤ vec_capacity list.new }
{
    if list.push(value).is_err() {
        unreachable!()
    }
}

/// Makes a list that has room for it so many times the value.
pub fn refill<T: Copy>(list: &mut Vec<T>, value: T, count: usize)
    requires { count ≤ vec_capacity list.old }
    ensures items { list.new.items ≡ replicate count value }
    ensures room { vec_capacity list.old ≤ vec_capacity list.new }
{
    list.clear();
    for _ in 0..count {
        add(list, value);
    }
}
