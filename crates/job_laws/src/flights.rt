//! Turns over servers with jobs.

ghost use Rattle.std.specs.Prelude.{◌≡◌, ℕ, List, Option, IfSome, Some, ◌≤◌};
ghost use Rattle.job_laws.specs.Prelude.{All, Allowed, Exchange, IsQuiet, Job, JoinsWell, Moment as AMoment, Observation as Reading};
ghost use Rattle.job_laws.specs.Prelude.{Placed, Safe, ServerNo as Number, World, observed, run, server_at, server_of, turned};
ghost use Rattle.job_laws.specs.Held.{HeldJob};
ghost use Rattle.job_laws.specs.Flights.{Flight, Held, Sound, IsShown, IsShownBridged, exchanged, slotted, stored, forgotten, restarted, opened_flight, begun, after_job};
ghost use Rattle.job_laws.specs.Leases.{Leases, IsLeased, Begins};

/// What is no job's turn keeps `Held`, with errant writes or without, and `Sound` if there are none afterwards. These
/// are an exchange, a poll's reading that is put into its slot, and a slot that is emptied. So are a reading that is
/// stored, an instance that is forgotten, and a restart.
pub fn other_turns_keep_sound()
    ensures held_exchange { (f : Flight) (e : Exchange) → Allowed f.world e → Held f →
        Held (exchanged f e) }
    ensures sound_exchange { (f : Flight) (e : Exchange) → Allowed f.world e → JoinsWell f.world e →
        IsQuiet (exchanged f e).world → Held f → Sound f → Sound (exchanged f e) }
    ensures shown { (w : World) (read : ℕ) (now : AMoment) (n : Number) → Placed w →
        IsShown w (observed w read now n) }
    ensures bridged { (w : World) (read : ℕ) (now : AMoment) (n : Number) → Safe w →
        IsShownBridged w (observed w read now n) }
    ensures held_slot { (f : Flight) (p : ℕ) (o : Option Reading) → IfSome o (IsShown f.world) →
        Held f → Held (slotted f p o) }
    ensures sound_slot { (f : Flight) (p : ℕ) (o : Option Reading) →
        IfSome o (IsShownBridged f.world) → Sound f → Sound (slotted f p o) }
    ensures held_store { (f : Flight) (o : Reading) → IsShown f.world o → Held f →
        Held (stored f o) }
    ensures sound_store { (f : Flight) (o : Reading) → IsShownBridged f.world o → Sound f →
        Sound (stored f o) }
    ensures held_forget { (f : Flight) (n : Number) → Held f → Held (forgotten f n) }
    ensures sound_forget { (f : Flight) (n : Number) → Sound f → Sound (forgotten f n) }
    ensures held_restart { (f : Flight) → Held f → Held (restarted f) }
    ensures sound_restart { (f : Flight) → Sound f → Sound (restarted f) }
{}

/// A job that begins with operations that have `Held`, over servers of which nobody has a lease, keeps `Held` and
/// `Sound`.
pub fn jobs_begin_held()
    ensures held { (f : Flight) (list : List Number) (j : Job) →
        Begins f.world f.jobs f.leases list j → Held f → Held (begun f list j) }
    ensures sound { (f : Flight) (list : List Number) (j : Job) →
        Begins f.world f.jobs f.leases list j → Sound f → Sound (begun f list j) }
{}

/// A turn of any job keeps `Held`, with errant writes or without, and `Sound` if there are none afterwards: for the
/// other jobs too. What it observed is true afterwards, so that it may be stored.
pub fn jobs_keep_sound()
    ensures held { (f : Flight) (read : ℕ) (now : AMoment) (id : ℕ) → Held f →
        Held (after_job f read now id) }
    ensures shown { (w : World) (read : ℕ) (now : AMoment) (j : Job) (o : Reading) → Placed w →
        HeldJob w j → (turned w read now j).observation ≡ Some o →
        IsShown (run w (turned w read now j).exchanges) o }
    ensures bridged { (w : World) (read : ℕ) (now : AMoment) (j : Job) (o : Reading) → Safe w →
        Placed w → HeldJob w j → (turned w read now j).observation ≡ Some o →
        IsShownBridged (run w (turned w read now j).exchanges) o }
    ensures sound { (f : Flight) (read : ℕ) (now : AMoment) (id : ℕ) → Held f → Sound f →
        IsQuiet (after_job f read now id).world → Sound (after_job f read now id) }
{}

/// Exchanges with servers that are leased to one job leave every other server as it is; and a lease names a job that
/// isn't ended.
pub fn others_are_left_alone()
    ensures left { (l : Leases) (id : ℕ) (w : World) (es : List Exchange) (m : ℕ) →
        All (λ e. IsLeased l id (server_of e)) es → (IsLeased l id m → ⊥) →
        server_at (run w es) m ≡ server_at w m }
    ensures job { (f : Flight) (read : ℕ) (now : AMoment) (id m : ℕ) → Held f →
        (IsLeased f.leases id m → ⊥) →
        server_at (after_job f read now id).world m ≡ server_at f.world m }
{}

/// A run begins with `Held` and `Sound`, and with no job.
pub fn flights_open_sound()
    ensures held { (w : World) (rings slots : ℕ) → Placed w → Held (opened_flight w rings slots) }
    ensures sound { (w : World) (rings slots : ℕ) → Safe w → Sound (opened_flight w rings slots) }
{}
