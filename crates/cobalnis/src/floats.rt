// The class of a float's 64 bits, by number.
ghost use Rattle.cobalnis.specs.Answers.{ClassShown};

pub fn cobalnis_classify(bits: u64) -> u32
    ensures { ClassShown bits result }
{
    elementary::classify(bits) as u32
}
