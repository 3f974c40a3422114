// What a call makes of the memory that it is handed.
use charts::Refusal;
use std::process::Abort;
use std::test::Fail;
use weights::Weight;

// Memory that begins as so many times one weight.
#[derive(Drop)]
pub(crate) struct Filled<K> {
    pub(crate) weights: Vec<K>,
    filling: K,
}

impl<K: Weight> Filled<K> {
    pub(crate) fn new(rt: &impl AllocGlobal, filling: K, places: usize) -> Result<Filled<K>, Fail> {
        let weights = vec![in rt.alloc(); filling; places]?;
        Ok(Filled { weights, filling })
    }

    // Behind its first places the memory is as it was. A call that refuses has no place.
    pub(crate) fn check_rest(
        &self,
        rt: &impl Abort,
        name: &str,
        answer: Result<(), Refusal>,
        places: usize,
    ) {
        let used = if answer.is_ok() { places } else { 0 };
        for weight in self.weights.iter().skip(used) {
            assert!(rt; weight.same(self.filling), "{name}");
        }
    }
}
