//! What the definitions mean: each law is a function with an empty body, whose contract is the law.

ghost use Rattle.std.specs.Prelude.{◌≡◌, ◌≢◌, ◌<◌, ◌↔◌, ◌++◌, ◌∷◌, ℕ, suc, true, false, List, All, Some, IfSome, is_some, is_ok, is_err};
ghost use Rattle.sfc_image.specs.declared.image.Image.{Image};
ghost use Rattle.sfc_image.specs.Agreement.{ImageAgrees};
ghost use Rattle.sfc_image.specs.Changes.{settled};
ghost use Rattle.sfc_image.specs.Environments.{Moment, environment_of};
ghost use Rattle.sfc_image.specs.Answers.{read_answer, release_fault};
ghost use Rattle.sfc_image.specs.Values.{variable_count};
ghost use Rattle.sfc_image.specs.Past.{image_past, past_in};
ghost use Rattle.sfc_base.specs.declared.ids.ProgId.{ProgId};
ghost use Rattle.sfc_base.specs.declared.ids.VarId.{VarId};
ghost use Rattle.sfc_plant.specs.Plants.{PlantData};
ghost use Rattle.sfc_base.specs.declared.value.Value.{Value};
ghost use Rattle.sfc_base.specs.declared.references.LocalId.{LocalId};
ghost use Rattle.sfc_base.specs.declared.references.Variable.{Variable};
ghost use Rattle.sfc_base.specs.declared.references.Variable.TheVariants.{Local};
ghost use Rattle.sfc_expr.specs.Environment.{Environment};
ghost use Rattle.sfc_image.specs.Changes.{Change, Stored, Forced, Released, Reset};
ghost use Rattle.sfc_image.specs.Values.{initial_of, type_of_variable, is_local_of};
ghost use Rattle.sfc_image.specs.Values.{stored_value, forced_value, value_of};
ghost use Rattle.sfc_image.specs.Types.{BeginsTyped, GivesType, AreTimes, types_of};
ghost use Rattle.sfc_image.specs.Environments.{number_of};
ghost use Rattle.sfc_image.specs.Bodies.{left_by};
ghost use Rattle.sfc_image.specs.BodyFaults.{faulty_statement, front};
ghost use Rattle.sfc_expr.specs.Dependence.{is_assigned};
ghost use Rattle.sfc_expr.specs.Effect.{effect};
ghost use Rattle.sfc_expr.specs.Trees.{Body};
ghost use Rattle.sfc_expr.specs.Types.{IsOf, GivesTypes};
ghost use Rattle.sfc_image.specs.Events.{writes, turns};

/// A forced variable reads the forced value whatever is written later, until it is released or forced anew; then it
/// reads the stored value (2.4).
pub fn forces()
    ensures hides { (plant : PlantData) (later earlier : List Change) (id : VarId) (v : Value) →
        All (λ change. turns id.0 change ≡ false) later → value_of plant (later ++ Forced id v ∷ earlier) id.0 ≡ v }
    ensures shows { (plant : PlantData) (changes : List Change) (id : VarId) →
        value_of plant (Released id ∷ changes) id.0 ≡ stored_value plant changes id.0 }
{}

/// The stored value of a variable is that of the latest write to it, under whatever force; its initial value where
/// nothing wrote to it, and after a reset of the instance that it is a local of (2.4.2).
pub fn stores()
    ensures latest { (plant : PlantData) (later earlier : List Change) (id : VarId) (v : Value) →
        All (λ change. writes plant id.0 change ≡ false) later →
        stored_value plant (later ++ Stored id v ∷ earlier) id.0 ≡ v }
    ensures reset { (plant : PlantData) (later earlier : List Change) (p : ProgId) (i : ℕ) → is_local_of plant p i ≡ true →
        All (λ change. writes plant i change ≡ false) later →
        stored_value plant (later ++ Reset p ∷ earlier) i ≡ initial_of plant i }
    ensures never { (plant : PlantData) (changes : List Change) (i : ℕ) →
        All (λ change. writes plant i change ≡ false) changes → stored_value plant changes i ≡ initial_of plant i }
{}

/// The locals of an instance are those variables that its program's local variables stand for (2.4.3, 2.5.3).
pub fn locals()
    ensures { (plant : PlantData) (p : ProgId) (i : ℕ) →
        (is_local_of plant p i ≡ true) ↔ ((id : LocalId) × (number_of plant p (Local id) ≡ Some i)) }
{}

/// A reset of an instance touches its locals alone, and no force.
pub fn resets()
    ensures others { (plant : PlantData) (changes : List Change) (p : ProgId) (i : ℕ) → is_local_of plant p i ≡ false →
        value_of plant (Reset p ∷ changes) i ≡ value_of plant changes i }
    ensures forces { (changes : List Change) (p : ProgId) (i : ℕ) →
        forced_value (Reset p ∷ changes) i ≡ forced_value changes i }
{}

/// Where a transaction only stores, as it does, its undoing takes back no force; and it takes back the value of no
/// variable that the transaction did not write.
pub fn undoing()
    ensures forces { (tried committed : List Change) (i : ℕ) → All (λ change. turns i change ≡ false) tried →
        forced_value (tried ++ committed) i ≡ forced_value committed i }
    ensures values { (plant : PlantData) (tried committed : List Change) (i : ℕ) →
        All (λ change. writes plant i change ≡ false) tried → All (λ change. turns i change ≡ false) tried →
        value_of plant (tried ++ committed) i ≡ value_of plant committed i }
{}

/// A body leaves in each variable that its program can name the value that the statements leave there, and what is stored
/// in every other variable; one that no statement assigns keeps its value. It forces and releases none (2.4.3, 3.3.2).
pub fn bodies()
    ensures named { (plant : PlantData) (p : ProgId) (env : Environment) (changes : List Change) (v : Variable) (i : ℕ) →
        number_of plant p v ≡ Some i → stored_value plant (left_by plant p env ++ changes) i ≡ env.stored_at v }
    ensures others { (plant : PlantData) (p : ProgId) (env : Environment) (changes : List Change) (i : ℕ) →
        ((v : Variable) → number_of plant p v ≢ Some i) →
        stored_value plant (left_by plant p env ++ changes) i ≡ stored_value plant changes i }
    ensures forces { (plant : PlantData) (p : ProgId) (env : Environment) (changes : List Change) (i : ℕ) →
        forced_value (left_by plant p env ++ changes) i ≡ forced_value changes i }
    ensures unassigned { (plant : PlantData) (p : ProgId) (changes : List Change) (moment : Moment) (body : Body) (v : Variable) (i : ℕ) →
        number_of plant p v ≡ Some i → is_assigned v body ≡ false →
        stored_value plant (left_by plant p (effect body (environment_of plant changes p moment)).environment ++ changes) i
        ≡ stored_value plant changes i }
{}

/// The statement that is told of a body has its fault: those before it end without one, and with it they end by that of the body
/// (3.3.2). None is told exactly where the body ends without a fault.
pub fn faulty_statements()
    ensures before { (body : Body) (env : Environment) (k : ℕ) → faulty_statement body env ≡ Some k →
        is_ok (effect (front k body) env).result ≡ true }
    ensures there { (body : Body) (env : Environment) (k : ℕ) → faulty_statement body env ≡ Some k →
        (effect (front (suc k) body) env).result ≡ (effect body env).result }
    ensures exactly { (body : Body) (env : Environment) → is_some (faulty_statement body env) ≡ is_err (effect body env).result }
{}

/// Where each variable begins with a value of its type, and each store and each force gives one of its variable's type,
/// a variable always has one: what is stored in it, what it is forced to, and what it reads (2.4.2). So an environment
/// gives each variable of the instance's program values of its type.
pub fn types()
    ensures stored { (plant : PlantData) (changes : List Change) (i : ℕ) → BeginsTyped plant →
        All (GivesType plant) changes → IsOf (type_of_variable plant i) (stored_value plant changes i) }
    ensures forced { (plant : PlantData) (changes : List Change) (i : ℕ) → All (GivesType plant) changes →
        IfSome (forced_value changes i) (IsOf (type_of_variable plant i)) }
    ensures reads { (plant : PlantData) (changes : List Change) (i : ℕ) → BeginsTyped plant →
        All (GivesType plant) changes → IsOf (type_of_variable plant i) (value_of plant changes i) }
    ensures environment { (plant : PlantData) (changes : List Change) (p : ProgId) (moment : Moment) →
        BeginsTyped plant → All (GivesType plant) changes → AreTimes moment.times →
        GivesTypes (types_of plant p) (environment_of plant changes p moment) }
    ensures body { (plant : PlantData) (p : ProgId) (env : Environment) → GivesTypes (types_of plant p) env →
        All (GivesType plant) (left_by plant p env) }
{}

/// What is kept, where no transaction is open, is the past of the changes: all that later answers need, and for all
/// lists of changes of this past the same.
pub fn kept_past()
    ensures kept { (plant : PlantData) (image : Image) (changes : List Change) →
        ImageAgrees plant image (settled changes) → past_in plant image ≡ image_past plant changes }
    ensures same { (plant : PlantData) (image : Image) (changes other : List Change) →
        ImageAgrees plant image (settled changes) → image_past plant changes ≡ image_past plant other →
        ImageAgrees plant image (settled other) }
{}

/// The changes may be cut at any place: after others of the same past the same changes give the same past.
pub fn cut()
    ensures { (plant : PlantData) (changes other later : List Change) →
        image_past plant changes ≡ image_past plant other →
        image_past plant (later ++ changes) ≡ image_past plant (later ++ other) }
{}

/// The past gives all answers.
pub fn past_answers()
    ensures value { (plant : PlantData) (changes other : List Change) (i : ℕ) → i < variable_count plant →
        image_past plant changes ≡ image_past plant other → value_of plant changes i ≡ value_of plant other i }
    ensures read { (plant : PlantData) (changes other : List Change) (id : VarId) →
        image_past plant changes ≡ image_past plant other → read_answer plant changes id ≡ read_answer plant other id }
    ensures release { (plant : PlantData) (changes other : List Change) (id : VarId) →
        image_past plant changes ≡ image_past plant other →
        release_fault plant changes id ≡ release_fault plant other id }
    ensures environment { (plant : PlantData) (changes other : List Change) (p : ProgId) (moment : Moment) →
        image_past plant changes ≡ image_past plant other →
        environment_of plant changes p moment ≡ environment_of plant other p moment }
{}
