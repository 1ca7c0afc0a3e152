//! What is answered over a link to who serves a mirror is that mirror's answer, and our own server is one who does.

ghost use Rattle.std.specs.Prelude.{◌≡◌, ◌≤◌, ◌++◌, ◌∷◌, ℕ, List, [], Some, length, map};
ghost use Rattle.id_groups.specs.Name.{Name as NameBytes};
ghost use Rattle.commit_graph.specs.World.{World};
ghost use Rattle.line_io.specs.Streams.{Streams};
ghost use Rattle.remote_rules.specs.Mirror.{Mirror};
ghost use Rattle.remote_rules.specs.Honest.{IsSoundMirror};
ghost use Rattle.remote_rules.specs.Serving.{IsServing};
ghost use Rattle.remote_trait.specs.Runs.{Run};
ghost use Rattle.remote_serve.specs.Frames.{frame};
ghost use Rattle.remote_serve.specs.Requests.{Request, IsRequest, request_bytes};
ghost use Rattle.remote_serve.specs.Answers.{Answer, Allows, LeftBy, answer_bytes, frame_of, longest_answer, IsAnswer, IsAnswerTo};
ghost use Rattle.remote_serve.specs.Ends.{AnswersAll};
ghost use Rattle.remote_pipe.specs.Peer.{Peer, request_frame, Brings, BringsEach, Serves, PutsWhole};
ghost use Rattle.remote_pipe.specs.Exchange.{Asked, Took};
ghost use Rattle.remote_pipe.specs.Ahead.{request_of, WasAllowed, AreToCome};
ghost use Rattle.remote_pipe.specs.Line.{served_by};
ghost use Rattle.remote_pipe.specs.Remote.{PlainPipe, mirror_of};

/// An answer has one spelling, and stands in front of bytes in one way.
pub fn answers_are_one()
    ensures bodies { (a b : Answer) → IsAnswer a → IsAnswer b → answer_bytes a ≡ answer_bytes b → a ≡ b }
    ensures frames { (a b : Answer) (x y : List ℕ) → IsAnswer a → IsAnswer b → length (answer_bytes a) ≤ longest_answer → length (answer_bytes b) ≤ longest_answer
        → frame_of a ++ x ≡ frame_of b ++ y → (a ≡ b) × (x ≡ y) }
{}

/// Where a mirror is served at the other end and none of its bytes is still to come, an answer that is taken behind a request is one that the
/// mirror allows, and none of its bytes is still to come then.
pub fn served_answers_are_allowed()
    ensures { (request : Request) (answer : Answer) (before now : Peer) (m : Mirror) → IsRequest request → IsAnswer answer → length (answer_bytes answer) ≤ longest_answer
        → before.mirror ≡ Some m → before.left ≡ [] → Asked (request_frame request) (frame_of answer) before now
        → (n : Mirror) × (now.mirror ≡ Some n) × (now.left ≡ []) × LeftBy request m n × Allows m n request answer }
{}

/// The same of what is asked ahead: a run that is put behind those that wait gets an answer that the mirror allows, behind theirs; and where
/// a frame is taken, it is the answer to the first of them, which the mirror allowed when that was put, while it told what it tells now.
pub fn answers_ahead_are_allowed()
    ensures put { (run : Run) (runs : List Run) (before now : Peer) (m : Mirror) → IsRequest (request_of run) → before.mirror ≡ Some m → AreToCome m runs before.left
        → PutsWhole (request_frame (request_of run)) before now → (n : Mirror) × (now.mirror ≡ Some n) × LeftBy (request_of run) m n × AreToCome n (runs ++ run ∷ []) now.left }
    ensures taken { (run : Run) (runs : List Run) (answer : Answer) (before now : Peer) (m : Mirror) → IsAnswer answer → length (answer_bytes answer) ≤ longest_answer
        → before.mirror ≡ Some m → AreToCome m (run ∷ runs) before.left → Took (frame_of answer) before now
        → (now.mirror ≡ Some m) × WasAllowed m run answer × AreToCome m runs now.left }
{}

/// A remote over a link to who serves a mirror means what that mirror means: it is sound where the mirror is, and serves a world that the
/// mirror serves.
pub fn served_mirrors_serve()
    ensures sound { (r : PlainPipe) (m : Mirror) → served_by r.line.peer ≡ Some m → IsSoundMirror m → IsSoundMirror (mirror_of r) }
    ensures serves { (r : PlainPipe) (m : Mirror) (cloned : ℕ) (w : World NameBytes) → served_by r.line.peer ≡ Some m → IsServing cloned w m → IsServing cloned w (mirror_of r) }
{}

/// The server of `remote_serve` is at the other end of a link who serves its mirror there: of the frame of a body comes the frame of the answer
/// to it, one after another for all that it answers.
pub fn servers_are_peers()
    ensures answer { (body : List ℕ) (answer : Answer) (m n : Mirror) → IsAnswerTo body m n answer → Brings (frame body) (Some m) (Some n) (frame_of answer) }
    ensures request { (request : Request) (answer : Answer) (m n : Mirror) → IsRequest request → IsAnswerTo (request_bytes request) m n answer → Serves request m n (frame_of answer) }
    ensures run { (limit : ℕ) (io : Streams) (m n : Mirror) (a : AnswersAll limit io m n) → BringsEach (map frame a.bodies) m n (map frame_of a.answers) }
{}
