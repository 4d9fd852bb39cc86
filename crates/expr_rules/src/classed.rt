// What is known of an expression in a statement.
ghost use Rattle.std.specs.Prelude.{◌≡◌, true, false, None};
ghost use Rattle.expr_rules.specs.Known.{classed};

use modes::Class;

/// What is known of an expression: its class, and whether nothing is told of it. The class is none where there is none, and
/// where anything but rule L6 is told in the expression.
pub struct Classed {
    pub class: Option<Class>,
    pub is_clean: bool,
}

// Dropped by hand, so that whoever drops one makes one call.
impl Drop for Classed {
    fn drop(self) {
        let Classed { class, is_clean: _ } = self;
        drop(class);
    }
}

impl Classed {
    /// That of which nothing is told.
    pub fn clean(class: Option<Class>) -> Classed
        ensures { result ≡ classed class true }
    {
        Classed {
            class,
            is_clean: true,
        }
    }

    /// That in which something is told.
    pub fn broken() -> Classed
        ensures { result ≡ classed None false }
    {
        Classed {
            class: None,
            is_clean: false,
        }
    }

    /// The same, where it is known whether anything is told of it besides.
    pub fn told(self, is_clean: bool) -> Classed
        ensures { result ≡ classed self.class is_clean }
    {
        let Classed { class, is_clean: _ } = self;
        Classed { class, is_clean }
    }
}
