//! The summary of all that stands above a node, but for the labels around it.

ghost use Rattle.std.specs.Prelude.{◌≡◌};
ghost use Rattle.rl_model.specs.Applied as model;
ghost use Rattle.rl_row_forms.specs.Aboves as spec;

/// The use of a node: it is read, or a target of some kind.
#[derive(Clone, Copy)]
pub enum Use {
    /// It is read.
    Reads,
    /// The target of `=`.
    Equals,
    /// The target of another assignment operator.
    Compounds,
    /// The target of `++` or `--`.
    Updates,
    /// Inside a target pattern.
    Takes,
    /// The head of a `for`-`in` or `for`-`of` loop.
    Heads,
    /// Inside a target pattern in such a head.
    TakesHead,
}

/// The summary of all that stands above a node, but for the labels around it.
#[derive(Clone, Copy)]
pub struct Above {
    /// The use of the node.
    pub used: Use,
    /// True in the block of a `try` of the function.
    pub tried: bool,
    /// True of a key without brackets.
    pub key: bool,
    /// True in a default, or in the test of a case.
    pub moved: bool,
    /// True of the rest of an object.
    pub rest: bool,
    /// True of the head of a `for`-`in` or `for`-`of` loop.
    pub head: bool,
    /// True of the name of an element.
    pub tag: bool,
    /// True inside a loop or a `switch`.
    pub breaks: bool,
    /// True inside a loop.
    pub continues: bool,
}

/// The summary at the top of a function.
pub fn top() -> Above
    ensures { result ≡ spec.top }
{
    Above {
        used: Use::Reads,
        tried: false,
        key: false,
        moved: false,
        rest: false,
        head: false,
        tag: false,
        breaks: false,
        continues: false,
    }
}

/// The summary for a part of which nothing is said but what holds of all parts of its statement.
pub fn part(above: Above) -> Above
    ensures { result ≡ spec.part above }
{
    Above {
        used: Use::Reads,
        key: false,
        moved: false,
        rest: false,
        head: false,
        tag: false,
        ..above
    }
}

/// The summary for a part of the use `used`.
pub fn using(used: Use, above: Above) -> Above
    ensures { result ≡ spec.using used above }
{
    Above {
        used,
        ..part(above)
    }
}

/// The use of what stands inside a target pattern, by that of the pattern.
fn inside_target(used: Use) -> Use
    ensures { result ≡ spec.inside_target used }
{
    match used {
        Use::Reads => Use::Takes,
        Use::Equals => Use::Takes,
        Use::Compounds => Use::Takes,
        Use::Updates => Use::Takes,
        Use::Takes => Use::Takes,
        Use::Heads => Use::TakesHead,
        Use::TakesHead => Use::TakesHead,
    }
}

/// The summary for a target inside a target pattern.
pub fn taken(above: Above) -> Above
    ensures { result ≡ spec.taken above }
{
    Above {
        used: inside_target(above.used),
        ..part(above)
    }
}

/// The summary for a default, or for the test of a case.
pub fn moving(above: Above) -> Above
    ensures { result ≡ spec.moving above }
{
    Above {
        moved: true,
        ..part(above)
    }
}

/// The summary for the parts of a loop.
pub fn looping(above: Above) -> Above
    ensures { result ≡ spec.looping above }
{
    Above {
        breaks: true,
        continues: true,
        ..part(above)
    }
}

/// The summary for the key of a property.
pub fn keyed(computed: bool, above: Above) -> Above
    ensures { result ≡ spec.keyed computed above }
{
    Above {
        key: !computed,
        ..part(above)
    }
}

/// The summary `above` for the rest of an object.
pub fn resting(above: Above) -> Above
    ensures { result ≡ spec.resting above }
{
    Above {
        rest: true,
        ..above
    }
}

/// The summary for the name of an element.
pub fn tagging(above: Above) -> Above
    ensures { result ≡ spec.tagging above }
{
    Above {
        tag: true,
        ..part(above)
    }
}

/// The summary for the object of the name of an element; `this` tells if the object is `this`.
pub fn membering(this: bool, above: Above) -> Above
    ensures { result ≡ spec.membering this above }
{
    Above {
        tag: this,
        ..part(above)
    }
}

/// The summary for the block of a `try`.
pub fn trying(above: Above) -> Above
    ensures { result ≡ spec.trying above }
{
    Above {
        tried: true,
        ..part(above)
    }
}

/// The summary for the head of a `for`-`in` or `for`-`of` loop.
pub fn heading(above: Above) -> Above
    ensures { result ≡ spec.heading above }
{
    Above {
        head: true,
        ..using(Use::Heads, above)
    }
}

/// The summary for the cases of a `switch`.
pub fn breaking(above: Above) -> Above
    ensures { result ≡ spec.breaking above }
{
    Above {
        breaks: true,
        ..part(above)
    }
}

/// True of a use that reads.
pub fn is_read(used: Use) -> bool
    ensures { result ≡ model.is_read (spec.use_of used) }
{
    match used {
        Use::Reads => true,
        Use::Equals => false,
        Use::Compounds => true,
        Use::Updates => true,
        Use::Takes => false,
        Use::Heads => false,
        Use::TakesHead => false,
    }
}

/// True of a use that assigns.
pub fn is_assigned(used: Use) -> bool
    ensures { result ≡ model.is_assigned (spec.use_of used) }
{
    match used {
        Use::Reads => false,
        Use::Equals => true,
        Use::Compounds => true,
        Use::Updates => true,
        Use::Takes => true,
        Use::Heads => true,
        Use::TakesHead => true,
    }
}
