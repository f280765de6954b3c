// Words in memory lent as sets: rising, each one time.
ghost use Rattle.std.specs.Prelude.{◌≤◌, ◌<◌, length};
ghost use Rattle.words.specs.Sorting.{NeverFalls};
ghost use Rattle.joining.specs.Sets.{RisesTo, SetOf, Meets};

// Keeps each of the words, which never fall, one time. Answers how many these are.
pub(crate) fn keep_once(words: &mut [u32]) -> usize
    requires { NeverFalls (length words.old) words.old }
    ensures { SetOf words.old result words.new }
{
    if words.is_empty() {
        return 0;
    }
    let mut n = 1;
    // (a) By an index: one list is read and written, and the library's `dedup` takes a `Vec`, whose elements lie in a heap.
    for i in 1..words.len() {
        let word = words[i];
        if words[n - 1] != word {
            words[n] = word;
            n += 1;
        }
    }
    n
}

// Keeps the words that stand among the others too. Both rise. Answers how many these are.
pub(crate) fn keep_common(words: &mut [u32], others: &[u32]) -> usize
    requires { RisesTo (length words.old) words.old × RisesTo (length others.now) others.now }
    ensures { Meets words.old others.now result words.new }
{
    let mut n = 0;
    let mut i = 0;
    let mut j = 0;
    // (d) No `for`, which is no plainer here: a turn goes on in the one list, or in the other, or in both.
    while i < words.len() && j < others.len() {
        let word = words[i];
        let other = others[j];
        if word < other {
            i += 1;
        } else if other < word {
            j += 1;
        } else {
            words[n] = word;
            n += 1;
            i += 1;
            j += 1;
        }
    }
    n
}
