//! Gates: one more literal, whose value is a function of the literals given.

ghost use Rattle.std.specs.Prelude.{◌≡◌, ◌+◌, ◌<◌, ◌≤◌, ◌^◌, ◌++◌, ◌∷◌, [], All, OnOk, IfOk, ◌&&◌, if◌then◌else◌, false, true, ◌↔◌};
ghost use Rattle.cnf_core.specs.Literals.{Names, Solves, lit_true};
ghost use Rattle.bit_words.specs.Builds.{Values, Stands, IsGate, differ, majority};

use crate::builder::Builder;
use cnf_core::Lit;
use js_units::NoMemory;
use sqlite_items::Items;

impl Builder {
    fn single(&mut self, a: Lit) -> Result<(), NoMemory>
        requires a { Names self.old.variables a }
        ensures clauses { OnOk result (self.new.clauses ≡ self.old.clauses ++ (a ∷ []) ∷ []) }
        ensures variables { self.new.variables ≡ self.old.variables }
        ensures stands { Stands self.old self.new }
    {
        let clause = vec![in self.alloc; a]?;
        self.add_clause(Items::from_vec(clause))
    }

    fn pair(&mut self, a: Lit, b: Lit) -> Result<(), NoMemory>
        requires a { Names self.old.variables a }
        requires b { Names self.old.variables b }
        ensures clauses { OnOk result (self.new.clauses ≡ self.old.clauses ++ (a ∷ b ∷ []) ∷ []) }
        ensures variables { self.new.variables ≡ self.old.variables }
        ensures stands { Stands self.old self.new }
    {
        let clause = vec![in self.alloc; a, b]?;
        self.add_clause(Items::from_vec(clause))
    }

    fn triple(&mut self, a: Lit, b: Lit, c: Lit) -> Result<(), NoMemory>
        requires a { Names self.old.variables a }
        requires b { Names self.old.variables b }
        requires c { Names self.old.variables c }
        ensures clauses { OnOk result (self.new.clauses ≡ self.old.clauses ++ (a ∷ b ∷ c ∷ []) ∷ []) }
        ensures variables { self.new.variables ≡ self.old.variables }
        ensures stands { Stands self.old self.new }
    {
        let clause = vec![in self.alloc; a, b, c]?;
        self.add_clause(Items::from_vec(clause))
    }

    /// A literal that holds where both do.
    #[tactic(auto, using(crate::proofs::Standing::standing))]
    pub fn gate_and(&mut self, a: Lit, b: Lit) -> Result<Lit, NoMemory>
        requires space { self.old.variables < 2 ^ 62 }
        requires a { Names self.old.variables a }
        requires b { Names self.old.variables b }
        ensures stands { Stands self.old self.new }
        ensures gate { IfOk result (λ lit. IsGate self.old self.new 1 lit (λ v. lit_true v a && lit_true v b)) }
    {
        let lit = self.new_bit();
        let not_lit = lit.opposite();
        self.pair(not_lit, a)?;
        self.pair(not_lit, b)?;
        self.triple(lit, a.opposite(), b.opposite())?;
        Ok(lit)
    }

    /// A literal that holds where exactly one of the two does.
    #[tactic(auto, using(crate::proofs::Standing::standing))]
    pub fn gate_xor(&mut self, a: Lit, b: Lit) -> Result<Lit, NoMemory>
        requires space { self.old.variables < 2 ^ 62 }
        requires a { Names self.old.variables a }
        requires b { Names self.old.variables b }
        ensures stands { Stands self.old self.new }
        ensures gate { IfOk result (λ lit. IsGate self.old self.new 1 lit (λ v. differ (lit_true v a) (lit_true v b))) }
    {
        let lit = self.new_bit();
        let not_lit = lit.opposite();
        let not_a = a.opposite();
        let not_b = b.opposite();
        self.triple(not_lit, a, b)?;
        self.triple(not_lit, not_a, not_b)?;
        self.triple(lit, not_a, b)?;
        self.triple(lit, a, not_b)?;
        Ok(lit)
    }

    /// A literal that is `a` where `c` holds, and `b` elsewhere.
    #[tactic(auto, using(crate::proofs::Standing::standing))]
    pub fn choose(&mut self, c: Lit, a: Lit, b: Lit) -> Result<Lit, NoMemory>
        requires space { self.old.variables < 2 ^ 62 }
        requires c { Names self.old.variables c }
        requires a { Names self.old.variables a }
        requires b { Names self.old.variables b }
        ensures stands { Stands self.old self.new }
        ensures gate { IfOk result (λ lit.
            IsGate self.old self.new 1 lit (λ v. if lit_true v c then lit_true v a else lit_true v b)) }
    {
        let lit = self.new_bit();
        let not_lit = lit.opposite();
        let not_a = a.opposite();
        let not_b = b.opposite();
        let not_c = c.opposite();
        self.triple(not_c, not_lit, a)?;
        self.triple(not_c, lit, not_a)?;
        self.triple(c, not_lit, b)?;
        self.triple(c, lit, not_b)?;
        Ok(lit)
    }

    /// A literal that holds where at least two of the three do.
    #[tactic(auto, using(crate::proofs::Standing::standing))]
    pub fn gate_majority(&mut self, a: Lit, b: Lit, c: Lit) -> Result<Lit, NoMemory>
        requires space { self.old.variables < 2 ^ 62 }
        requires a { Names self.old.variables a }
        requires b { Names self.old.variables b }
        requires c { Names self.old.variables c }
        ensures stands { Stands self.old self.new }
        ensures gate { IfOk result (λ lit.
            IsGate self.old self.new 1 lit (λ v. majority (lit_true v a) (lit_true v b) (lit_true v c))) }
    {
        let lit = self.new_bit();
        let not_lit = lit.opposite();
        let not_a = a.opposite();
        let not_b = b.opposite();
        let not_c = c.opposite();
        self.triple(not_lit, a, b)?;
        self.triple(not_lit, a, c)?;
        self.triple(not_lit, b, c)?;
        self.triple(lit, not_a, not_b)?;
        self.triple(lit, not_a, not_c)?;
        self.triple(lit, not_b, not_c)?;
        Ok(lit)
    }

    /// A literal that never holds.
    #[tactic(auto, using(crate::proofs::Standing::standing))]
    pub fn never(&mut self) -> Result<Lit, NoMemory>
        requires space { self.old.variables < 2 ^ 62 }
        ensures stands { Stands self.old self.new }
        ensures gate { IfOk result (λ lit. IsGate self.old self.new 1 lit (λ v. false)) }
    {
        let lit = self.new_bit();
        self.single(lit.opposite())?;
        Ok(lit)
    }

    /// A literal that always holds.
    #[tactic(auto, using(crate::proofs::Standing::standing))]
    pub fn always(&mut self) -> Result<Lit, NoMemory>
        requires space { self.old.variables < 2 ^ 62 }
        ensures stands { Stands self.old self.new }
        ensures gate { IfOk result (λ lit. IsGate self.old self.new 1 lit (λ v. true)) }
    {
        let never = self.never()?;
        Ok(never.opposite())
    }

    /// Lets stand exactly the values at which the literal is true. No bit is added.
    #[tactic(auto, using(crate::proofs::Standing::standing))]
    pub fn assert_lit(&mut self, a: Lit) -> Result<(), NoMemory>
        requires a { Names self.old.variables a }
        ensures stands { Stands self.old self.new }
        ensures variables { self.new.variables ≡ self.old.variables }
        ensures exact { (v : Values) →
            OnOk result (Solves v self.new.clauses ↔ (Solves v self.old.clauses × (lit_true v a ≡ true))) }
    {
        self.single(a)?;
        Ok(())
    }
}
